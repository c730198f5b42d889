//! A watched state that workers serve as a desk.
use crate::watched::Watched;
use std::sync::Wait;
use worker_lease::{NeverPauses, OnDesk};

impl<'a, K: OnDesk, R: Wait> OnDesk for Watched<'a, K, R> {
    ghost pauses = { K.pauses };

    ghost takes = { K.takes };

    ghost says = { K.says };

    ghost tells = { K.tells };

    ghost replies = { λ before worker a b after serves. K.replies before.kept worker a b after.kept serves };
}

impl<'a, K: NeverPauses, R: Wait> NeverPauses for Watched<'a, K, R> {
    ghost never = { K.never };
}
