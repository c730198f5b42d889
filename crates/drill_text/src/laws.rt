//! What the texts of orders mean.
ghost use Rattle.std.specs.Prelude.{◌≡◌, ℕ, List, Some};
ghost use Rattle.drill_text.specs.declared.order.Order.{Order};
ghost use Rattle.drill_text.specs.Order.{HasLease, order_of, order_text};

/// An order is read from its text.
pub fn orders_are_read()
    ensures { (o : Order) → HasLease o → order_of (order_text o) ≡ Some o }
{}

/// What is read as an order is its text.
pub fn what_is_read_is_an_order()
    ensures text { (text : List ℕ) (o : Order) → order_of text ≡ Some o → text ≡ order_text o }
    ensures lease { (text : List ℕ) (o : Order) → order_of text ≡ Some o → HasLease o }
{}

/// A text is that of one order.
pub fn one_order()
    ensures { (a b : Order) → HasLease a → HasLease b → order_text a ≡ order_text b → a ≡ b }
{}
