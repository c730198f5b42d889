//! What a waiting thread offers.

use stab_base::ChanId;

/// The end of a channel at which a thread acts.
#[derive(Clone, Copy, PartialEq, Eq, Debug)]
pub enum Side {
    Send,
    Recv,
}

/// What a thread that waits would do.
#[derive(Clone, Copy, PartialEq, Eq, Debug)]
pub enum Offer {
    Send(ChanId),
    Recv(ChanId),
    /// It receives from the first of two channels on which someone sends. The two may be one.
    Pick(ChanId, ChanId),
}
