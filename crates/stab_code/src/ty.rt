//! Types as a program writes them.
ghost use Rattle.std.specs.Prelude.{◌≡◌, ◌↔◌, IfOk, IsTrue};
ghost use Rattle.stab_code.specs.WrittenType.{written_by};

use stab_base::{NoMemory, Same};
use std::alloc::Global;
use std::marker::Model;

/// What a written type is made of. Contracts see it as a `Written`, which has no addresses.
#[derive(Drop)]
pub enum TyForm {
    Unit,
    Bool,
    Int,
    Text,
    Chan(Box<TyForm>),
    Ref(Box<TyForm>),
    Pair(Box<TyForm>, Box<TyForm>),
}

/// A type as a program writes it. Contracts see it as a `Written`.
#[derive(Drop)]
pub struct Ty {
    form: Box<TyForm>,
}

impl Model for Ty {
    ghost use Rattle.stab_code.specs.Written.{Written};
    ghost use Rattle.stab_code.specs.WrittenCode.{coded_written};
    ghost use Rattle.stab_code.specs.WrittenType.{written_by};

    ghost Value = { Written };

    ghost coded = { coded_written };

    ghost view = { λ t. written_by t.form.value };
}

impl Ty {
    /// The type of this form.
    pub fn new(alloc: Global, form: TyForm) -> Result<Ty, NoMemory>
        ensures { IfOk result (λ ty. ty ≡ written_by form) }
    {
        let form = Box::new(alloc, form)?;
        Ok(Ty { form })
    }

    /// What the type is made of, to match on.
    pub fn form(&self) -> &TyForm
        ensures { written_by result.now ≡ self.now }
    {
        &self.form
    }
}

impl Same for Ty {
    fn same(&self, other: &Ty) -> bool {
        is_same_form(&self.form, &other.form)
    }
}

fn is_same_form(a: &TyForm, b: &TyForm) -> bool
    ensures { IsTrue result ↔ (written_by a.now ≡ written_by b.now) }
{
    match (a, b) {
        (TyForm::Unit, TyForm::Unit) => true,
        (TyForm::Bool, TyForm::Bool) => true,
        (TyForm::Int, TyForm::Int) => true,
        (TyForm::Text, TyForm::Text) => true,
        (TyForm::Chan(x), TyForm::Chan(y)) => is_same_form(x, y),
        (TyForm::Ref(x), TyForm::Ref(y)) => is_same_form(x, y),
        (TyForm::Pair(x, p), TyForm::Pair(y, q)) => is_same_form(x, y) && is_same_form(p, q),
        _ => false,
    }
}
