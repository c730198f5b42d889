//! Where a form is, and which section it is in, by numbers of 32 bits: a journal has no more events.
ghost use Rattle.std.specs.Prelude.{◌≡◌, ◌↔◌, ◌<◌, None, Some, IsTrue};
ghost use Rattle.step_eval.specs.Fits.{outside};
ghost use Rattle.step_eval.specs.Place.{mark_of};
ghost use Rattle.step_eval.specs.declared.site.Site.TheVariants.{Form, Section};

use crate::site::Site;
use stab_base::Seq;
use stab_code::NodeId;
use std::marker::Model;

/// The number of the innermost section, if there is one.
#[derive(Drop)]
pub(crate) struct Mark {
    /// One more than the number, or 0 for none.
    above: u32,
}

impl Model for Mark {
    ghost use Rattle.std.specs.Prelude.{Option};
    ghost use Rattle.std.specs.Coded.{codes};
    ghost use Rattle.stab_base.specs.declared.numbers.Seq.{Seq};
    ghost use Rattle.stab_base.specs.contracts.numbers.Seq as numbers;

    ghost Value = { Option Seq };

    ghost coded = { Prim.hlevel (codes, numbers.the_row.coded) };

    ghost use Rattle.step_eval.specs.Place.{mark_of};

    ghost view = { λ m. mark_of m.above };
}

impl Mark {
    /// No section.
    pub(crate) fn none() -> Mark
        ensures { result ≡ None }
    {
        Mark { above: 0 }
    }

    /// The section that was entered at this number.
    pub(crate) fn of(q: Seq) -> Mark
        requires { q.0 < 4294967295 }
        ensures { result ≡ Some q }
    {
        Mark {
            above: q.0 as u32 + 1,
        }
    }

    /// The number.
    #[inline(always)]
    pub(crate) fn seq(&self) -> Option<Seq>
        ensures { result ≡ self.now }
    {
        number_in(self.above)
    }

    /// The same once more.
    #[inline(always)]
    pub(crate) fn copy(&self) -> Mark
        ensures { result ≡ self.now }
    {
        Mark { above: self.above }
    }

    /// Whether two are equal.
    #[tactic(auto, using(crate::proofs::Places::one_mark))]
    pub(crate) fn same(&self, other: &Mark) -> bool
        ensures { IsTrue result ↔ (self.now ≡ other.now) }
    {
        self.above == other.above
    }
}

#[inline(always)]
#[tactic(auto, using(crate::proofs::Places::mark_above))]
fn number_in(above: u32) -> Option<Seq>
    ensures { result ≡ mark_of above }
{
    if above == 0 {
        None
    } else {
        Some(Seq(u64::from(above - 1)))
    }
}

/// What a `Site` says, in 16 bytes.
#[derive(Clone, Copy, PartialEq, Eq)]
enum Narrow {
    Form(NodeId, usize),
    /// The number of the section, and what a `Mark` has of the one round it.
    Section(u32, u32),
}

/// Where a form is. Contracts see a `Site`.
#[derive(Drop)]
pub(crate) struct Place {
    narrow: Narrow,
}

impl Model for Place {
    ghost use Rattle.step_eval.specs.declared.site.Site.{Site};
    ghost use Rattle.step_eval.specs.contracts.site.Site as sites;

    ghost Value = { Site };

    ghost coded = { sites.the_row.coded };

    ghost use Rattle.step_eval.specs.Place.{site_of};

    ghost view = { λ p. site_of p.narrow };
}

impl Place {
    /// A node, and how many of a block's items are gone.
    #[inline(always)]
    pub(crate) fn form(n: NodeId, from: usize) -> Place
        ensures { result ≡ Form n from }
    {
        Place {
            narrow: Narrow::Form(n, from),
        }
    }

    /// A section, and the one round it.
    pub(crate) fn section(q: Seq, outer: &Mark) -> Place
        requires { q.0 < 4294967295 }
        ensures { result ≡ Section q outer.now }
    {
        Place {
            narrow: Narrow::Section(q.0 as u32, outer.above),
        }
    }

    /// Where it is.
    #[inline(always)]
    pub(crate) fn site(&self) -> Site
        ensures { result ≡ self.now }
    {
        match self.narrow {
            Narrow::Form(n, from) => Site::Form(n, from),
            Narrow::Section(q, outer) => Site::Section(Seq(u64::from(q)), number_in(outer)),
        }
    }

    /// The mark outside, where it is this one inside.
    pub(crate) fn outside(&self, mark: &Mark) -> Mark
        ensures { result ≡ outside mark.now self.now }
    {
        match self.narrow {
            Narrow::Form(_n, _from) => mark.copy(),
            Narrow::Section(_q, outer) => Mark { above: outer },
        }
    }

    /// The same once more.
    #[inline(always)]
    pub(crate) fn copy(&self) -> Place
        ensures { result ≡ self.now }
    {
        Place {
            narrow: self.narrow,
        }
    }

    /// Whether two are equal.
    #[tactic(auto, using(crate::proofs::Places::one_site))]
    pub(crate) fn same(&self, other: &Place) -> bool
        ensures { IsTrue result ↔ (self.now ≡ other.now) }
    {
        self.narrow == other.narrow
    }
}
