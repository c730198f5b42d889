//! The syntax of a program, as a flat list of forms.
ghost use Rattle.stab_code.specs.Written.{chan_type, ref_type, pair_type};
ghost use Rattle.stab_code.specs.WrittenType.{written_by};
ghost use Rattle.std.specs.Prelude.{◌≡◌, IfOk, ◌++◌, ◌∷◌, [], None, Some, length, replicate, reverse, OnOk};
ghost use Rattle.stab_parse.specs.Forms.{head_of_block};
ghost use Rattle.stab_parse.specs.ItemNames.{HasLet, names_kept};

use crate::symbol::{ActWord, CallWord, Span};
use stab_code::{Op, TyForm};
use std::alloc::{AllocError, Global};
use std::marker::Model;
use std::mem;

/// The names of a block's items in the order of writing, none for an item without `let`. Contracts see them as a list.
#[derive(Drop)]
pub struct Lets {
    names: Box<Vec<Option<Span>>>,
}

impl Model for Lets {
    ghost use Rattle.std.specs.Prelude.{List, Option};
    ghost use Rattle.stab_parse.specs.declared.symbol.Span.{Span};

    ghost Value = { List (Option Span) };

    ghost view = { λ lets. lets.names.value.items };
}

impl Lets {
    /// The names of this many items without `let`, and one more.
    fn behind(alloc: Global, items: usize, name: Span) -> Result<Lets, AllocError>
        ensures ok { IfOk result (λ lets. lets ≡ replicate items None ++ Some name ∷ []) }
    {
        let names = Vec::from_elem(alloc, None, items)?;
        let mut lets = Lets {
            names: Box::new(alloc, names)?,
        };
        lets.push(Some(name))?;
        Ok(lets)
    }

    fn push(&mut self, name: Option<Span>) -> Result<(), AllocError>
        ensures ok { OnOk result (self.new ≡ self.old ++ name ∷ []) }
    {
        self.names.push(name)?;
        Ok(())
    }

    /// The names in the order of writing.
    pub fn all(&self) -> &[Option<Span>]
        ensures { result.now ≡ self.now }
    {
        self.names.as_slice()
    }
}

/// The items of a block: how many they are while none is a let, else their names, none for an item without `let`.
#[derive(Drop)]
pub enum Kept {
    Forms(usize),
    Names(Lets),
}

/// The names of the items that a block has so far. They take no memory before the first let. Contracts see them as a list.
#[derive(Drop)]
pub struct ItemNames {
    kept: Kept,
}

impl Model for ItemNames {
    ghost use Rattle.std.specs.Prelude.{List, Option};
    ghost use Rattle.stab_parse.specs.declared.symbol.Span.{Span};
    ghost use Rattle.stab_parse.specs.ItemNames.{HasLet, names_kept};

    ghost Value = { List (Option Span) };

    ghost view = { λ names. names_kept names.kept };

    ghost invariant = { λ names. HasLet names.kept };
}

impl Kept {
    /// One item more.
    #[inline(always)]
    fn with(self, alloc: Global, name: Option<Span>) -> Result<Kept, AllocError>
        requires { HasLet self }
        ensures names { IfOk result (λ kept. names_kept kept ≡ names_kept self ++ name ∷ []) }
        ensures has_let { IfOk result HasLet }
    {
        match (self, name) {
            (Kept::Forms(items), None) => match items.checked_add(1) {
                Some(items) => Ok(Kept::Forms(items)),
                None => Err(AllocError),
            },
            (Kept::Forms(items), Some(name)) => {
                Ok(Kept::Names(Lets::behind(alloc, items, name)?))
            }
            (Kept::Names(mut lets), name) => {
                lets.push(name)?;
                Ok(Kept::Names(lets))
            }
        }
    }
}

impl ItemNames {
    pub(crate) fn new() -> ItemNames
        ensures { result ≡ [] }
    {
        ItemNames {
            kept: Kept::Forms(0),
        }
    }

    #[inline(always)]
    pub(crate) fn push(&mut self, alloc: Global, name: Option<Span>) -> Result<(), AllocError>
        ensures ok { OnOk result (self.new ≡ self.old ++ name ∷ []) }
    {
        let kept = mem::replace(&mut self.kept, Kept::Forms(0));
        self.kept = kept.with(alloc, name)?;
        Ok(())
    }

    /// How many items there are.
    pub(crate) fn len(&self) -> usize
        ensures { result ≡ length self.now }
    {
        match &self.kept {
            Kept::Forms(items) => *items,
            Kept::Names(lets) => lets.all().len(),
        }
    }

    /// The head of the block that has these items.
    #[tactic(auto, using(crate::proofs::ItemNames::no_let))]
    pub(crate) fn into_head(self) -> Head
        ensures { result ≡ head_of_block self }
    {
        let ItemNames { kept } = self;
        match kept {
            Kept::Forms(_) => Head::Block,
            Kept::Names(lets) => Head::LetBlock(lets),
        }
    }
}

/// A type as it is written. Contracts see it as a `Written`.
#[derive(Drop)]
pub struct ParsedType {
    form: Box<TyForm>,
}

impl Model for ParsedType {
    ghost use Rattle.stab_code.specs.Written.{Written};
    ghost use Rattle.stab_code.specs.WrittenCode.{coded_written};
    ghost use Rattle.stab_code.specs.WrittenType.{written_by};

    ghost Value = { Written };

    ghost coded = { coded_written };

    ghost view = { λ t. written_by t.form.value };
}

impl ParsedType {
    pub(crate) fn new(alloc: Global, form: TyForm) -> Result<ParsedType, AllocError>
        ensures ok { IfOk result (λ ty. ty ≡ written_by form) }
    {
        let form = Box::new(alloc, form)?;
        Ok(ParsedType { form })
    }

    pub(crate) fn chan(self, alloc: Global) -> Result<ParsedType, AllocError>
        ensures ok { IfOk result (λ outer. outer ≡ chan_type self) }
    {
        let ParsedType { form } = self;
        ParsedType::new(alloc, TyForm::Chan(form))
    }

    pub(crate) fn reference(self, alloc: Global) -> Result<ParsedType, AllocError>
        ensures ok { IfOk result (λ outer. outer ≡ ref_type self) }
    {
        let ParsedType { form } = self;
        ParsedType::new(alloc, TyForm::Ref(form))
    }

    pub(crate) fn pair(self, alloc: Global, second: ParsedType) -> Result<ParsedType, AllocError>
        ensures ok { IfOk result (λ outer. outer ≡ pair_type self second) }
    {
        let ParsedType { form: left } = self;
        let ParsedType { form: right } = second;
        ParsedType::new(alloc, TyForm::Pair(left, right))
    }

    /// What the type is made of, to match on.
    pub fn form(&self) -> &TyForm
        ensures { written_by result.now ≡ self.now }
    {
        &self.form
    }
}

/// What a form is, without its parts. A name is given by where it is written.
#[derive(Drop)]
pub enum Head {
    /// Written `()` or `{}`, or not written at all: a missing `else`, and the end of a block after its last item.
    Unit,
    Truth(bool),
    Int(i64),
    /// A text, with both its quotes.
    Text(Span),
    Variable(Span),
    /// A block with items of which none is a let: their forms and then its last form are its parts.
    Block,
    /// A block with a let among its items, by their names.
    LetBlock(Lets),
    /// The condition, and the two branches.
    If,
    Two(Op),
    Not,
    Neg,
    Pair,
    /// A call of a function, by its name.
    Call(Span),
    /// A function that is started by the word, by its name.
    Start(CallWord, Span),
    NewChan(ParsedType),
    Act(ActWord),
}

/// A form in the list of a tree, in which its parts are the last complete forms before it.
#[derive(Drop)]
pub struct FormNode {
    pub head: Head,
    /// How many parts it has.
    pub parts: usize,
}

/// A parameter as it is written.
#[derive(Drop)]
pub struct Param {
    pub name: Span,
    pub ty: ParsedType,
}

/// The parameters of a function in the order of writing. Contracts see them as a list.
#[derive(Drop)]
pub struct Params {
    params: Box<Vec<Param>>,
}

impl Model for Params {
    ghost use Rattle.std.specs.Prelude.{List};
    ghost use Rattle.stab_parse.specs.declared.tree.Param.{Param};
    ghost use Rattle.std.specs.Coded.{codes};
    ghost use Rattle.stab_code.specs.WrittenCode.{coded_written};

    ghost Value = { List Param };

    ghost coded = { Prim.hlevel (codes, coded_written) };

    ghost view = { λ params. params.params.value.items };
}

impl Params {
    pub(crate) fn new(alloc: Global) -> Result<Params, AllocError>
        ensures ok { IfOk result (λ params. params ≡ []) }
    {
        let params = Box::new(alloc, Vec::new(alloc))?;
        Ok(Params { params })
    }

    pub(crate) fn push(&mut self, param: Param) -> Result<(), AllocError>
        ensures ok { OnOk result (self.new ≡ self.old ++ param ∷ []) }
    {
        self.params.push(param)?;
        Ok(())
    }

    /// The parameters in the order of writing.
    pub fn all(&self) -> &[Param]
        ensures { result.now ≡ self.now }
    {
        self.params.as_slice()
    }
}

/// A function as it is written. The forms of its body are in the tree's list from where those of the function
/// before it end, the body itself last.
#[derive(Drop)]
pub struct Function {
    pub name: Span,
    pub params: Params,
    pub gives: ParsedType,
    /// How many forms of the tree there are up to the end of this function.
    pub forms_end: usize,
}

/// The forms of a program in order. Contracts see the last one first.
#[derive(Drop)]
pub struct Forms {
    forms: Vec<FormNode>,
}

impl Model for Forms {
    ghost use Rattle.std.specs.Prelude.{List, reverse};
    ghost use Rattle.std.specs.Coded.{codes};
    ghost use Rattle.stab_code.specs.WrittenCode.{coded_written};
    ghost use Rattle.stab_parse.specs.declared.tree.FormNode.{FormNode};

    ghost Value = { List FormNode };

    ghost coded = { Prim.hlevel (codes, coded_written) };

    ghost view = { λ forms. reverse forms.forms.items };
}

impl Forms {
    /// No forms yet, with room for this many.
    pub(crate) fn with_capacity(alloc: Global, forms: usize) -> Result<Forms, AllocError>
        ensures ok { IfOk result (λ made. made ≡ []) }
    {
        let forms = Vec::with_capacity(alloc, forms)?;
        Ok(Forms { forms })
    }

    #[inline(always)]
    pub(crate) fn push(&mut self, form: FormNode) -> Result<(), AllocError>
        ensures ok { OnOk result (self.new ≡ form ∷ self.old) }
    {
        self.forms.reserve(1)?;
        self.forms.push_reserved(form);
        Ok(())
    }

    pub(crate) fn len(&self) -> usize
        ensures { result ≡ length self.now }
    {
        self.forms.len()
    }

    /// The forms in order.
    pub fn all(&self) -> &[FormNode]
        ensures { result.now ≡ reverse self.now }
    {
        self.forms.as_slice()
    }
}

/// The functions of a program in order. Contracts see them as a list.
#[derive(Drop)]
pub struct Functions {
    functions: Vec<Function>,
}

impl Model for Functions {
    ghost use Rattle.std.specs.Prelude.{List};
    ghost use Rattle.std.specs.Coded.{codes};
    ghost use Rattle.stab_code.specs.WrittenCode.{coded_written};
    ghost use Rattle.stab_parse.specs.declared.tree.Function.{Function};

    ghost Value = { List Function };

    ghost coded = { Prim.hlevel (codes, coded_written) };

    ghost view = { λ functions. functions.functions.items };
}

impl Functions {
    pub(crate) fn new(alloc: Global) -> Functions
        ensures { result ≡ [] }
    {
        Functions {
            functions: Vec::new(alloc),
        }
    }

    pub(crate) fn push(&mut self, function: Function) -> Result<(), AllocError>
        ensures ok { OnOk result (self.new ≡ self.old ++ function ∷ []) }
    {
        self.functions.push(function)?;
        Ok(())
    }

    /// The functions in order.
    pub fn all(&self) -> &[Function]
        ensures { result.now ≡ self.now }
    {
        self.functions.as_slice()
    }
}

/// The syntax of a program.
#[derive(Drop)]
pub struct Tree {
    pub functions: Functions,
    pub forms: Forms,
}
