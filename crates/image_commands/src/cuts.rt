//! The cuts of a history.
ghost use Rattle.std.specs.Prelude.{◌≡◌, ◌≤◌, ◌<◌, MatchOption};
ghost use Rattle.image_commands.specs.Cuts.{IsCutOf, cuts_in, is_cut};

use stab_base::Seq;
use stab_journal::{History, Label, What};

/// The n-th cut of a history, where it has so many.
pub(crate) fn cut_at(history: &History, n: u32) -> Option<Seq>
    requires { 1 ≤ n }
    ensures { MatchOption result (cuts_in history.now.events < n) (λ q. IsCutOf history.now.events n q.0) }
{
    let mut cuts = 0;
    for i in 0..history.len() {
        let seq = Seq(i + 1);
        if is_cut(history.get(seq).unwrap().what) {
            cuts += 1;
            if cuts == n {
                return Some(seq);
            }
        }
    }
    None
}

fn is_cut(what: What) -> bool
    ensures { result ≡ is_cut what }
{
    matches!(what, What::Step(Label::Cut(_)))
}
