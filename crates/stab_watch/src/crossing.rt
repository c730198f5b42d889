//! What threads may share.
use crate::board::Board;
use crate::passes::ReadPass;
use crate::watched::Watched;
use std::sync::ledger::Ledger;
use std::sync::{Arc, Mutex, Wait};
use turn_floor::{Floor, Kept};

fn crosses_threads<T: Send + Sync>(_value: &T) {}

fn is_sent<T: Send>(_value: &T) {}

fn board_crosses_threads(board: &Arc<Board>) {
    crosses_threads(board);
}

fn reader_crosses_threads(reader: &Mutex<ReadPass>) {
    crosses_threads(reader);
}

fn watched_is_sent<K: Kept + Send, R: Wait + Sync>(watched: &Watched<'_, K, R>) {
    is_sent(watched);
}

fn floor_crosses_threads<
    K: Kept + Send + Sync,
    C: Ledger + Send + Sync,
    S: Ledger + Send + Sync,
    R: Wait + Sync,
>(floor: &Floor<Watched<'_, K, R>, C, S>) {
    crosses_threads(floor);
}
