//! Texts with sections, cuts and pins.

// A section sends, and what came of it is written to a reference, read, and sent back.
pub(super) const CASCADE: &str = "
fn a(c: chan[int], k: chan[int]): unit { send(c, 5); recv(k); if probe() < 0 { stabilize() } else { () } }
fn b(c: chan[int], r: ref[int]): unit { set(r, recv(c)) }
fn c(r: ref[int], k: chan[int]): unit { let v = get(r); if v == 0 { c(r, k) } else { send(k, v) } }
fn d(): unit { print(4) }
fn main(): unit {
    let m = chan[int](); let k = chan[int](); let r = ref(0);
    spawn b(m, r); spawn c(r, k); spawn d(); stable a(m, k); print(get(r))
}";

// Workers that take jobs back into the queue.
const QUEUE: &str = "
fn job(q: chan[int], done: chan[int]): unit { let n = recv(q); if probe() < 0 { stabilize() } else { send(done, n * n) } }
fn worker(q: chan[int], done: chan[int]): unit { stable job(q, done); worker(q, done) }
fn feed(q: chan[int], n: int): unit { if n == 0 { () } else { send(q, n); feed(q, n - 1) } }
fn gather(d: chan[int], n: int, t: int): int { if n == 0 { t } else { cut(); gather(d, n - 1, t + recv(d)) } }
fn main(): unit {
    let q = chan[int](); let done = chan[int]();
    spawn worker(q, done); spawn worker(q, done); spawn feed(q, 6); print(gather(done, 6, 0))
}";

// Writes of one reference in sections and outside them.
const WRITES: &str = "
fn a(r: ref[int]): unit { set(r, get(r) + 100); if probe() < 0 { set(r, 1); stabilize() } else { print(get(r)) } }
fn d(r: ref[int], n: int): unit { set(r, n); print(get(r)); if n == 9 { cut() } else { d(r, n + 1) } }
fn both(r: ref[int], n: int): unit { stable a(r); if n == 0 { () } else { both(r, n - 1) } }
fn main(): unit { let r = ref(0); spawn d(r, 2); spawn both(r, 2); both(r, 3); print(get(r)) }";

// Sections in sections, of which the innermost is taken back first.
const NESTED: &str = "
fn inner(): int { if probe() < 0 { stabilize() } else { attempt() } }
fn outer(n: int): int {
    let x = stable inner(); print(x);
    if probe() < 0 { stabilize() } else { if n == 0 { x } else { x + stable outer(n - 1) } }
}
fn t(n: int): unit { print(stable outer(2)); if n == 1 { pin() } else { () }; if n == 0 { () } else { t(n - 1) } }
fn main(): unit { spawn t(2); t(3); cut() }";

// Threads and channels that are made in a section.
const CHILDREN: &str = "
fn part(r: ref[int], c: chan[int], n: int): int {
    set(r, get(r) + n); print(get(r)); let d = chan[int](); spawn kid(d, n); let k = recv(d);
    if probe() < 0 { stabilize() } else { send(c, k); k }
}
fn kid(d: chan[int], n: int): unit {
    print(100 + n); spawn grandchild(d, n); if probe() < 0 { pin() } else { () }
}
fn grandchild(d: chan[int], n: int): unit { send(d, n); stabilize() }
fn t(r: ref[int], c: chan[int], n: int): unit { stable part(r, c, n); if n == 0 { cut() } else { t(r, c, n - 1) } }
fn main(): unit {
    let r = ref(0); let c = chan[int](); spawn t(r, c, 2); spawn t(r, c, 3);
    print(recv(c)); print(recv(c)); print(recv(c)); cut(); print(recv(c)); print(get(r))
}";

// A partner that has left its own section, or is still in it.
const PARTNER: &str = "
fn left(c: chan[int]): int { let x = recv(c); if x == 3 { pin(); x } else { x } }
fn right(c: chan[int], k: chan[int], n: int): unit {
    send(c, n); print(recv(k)); if probe() < 0 { stabilize() } else { () }
}
fn b(c: chan[int], k: chan[int]): unit { let x = stable left(c); send(k, x); b(c, k) }
fn a(c: chan[int], k: chan[int], n: int): unit { stable right(c, k, n); if n == 0 { cut() } else { a(c, k, n - 1) } }
fn main(): unit { let c = chan[int](); let k = chan[int](); spawn b(c, k); spawn b(c, k); spawn a(c, k, 4); a(c, k, 2) }";

// Picks among senders that take their sends back.
const PICKS: &str = "
fn one(c: chan[int], n: int): unit { send(c, n); if probe() < 0 { stabilize() } else { () } }
fn s(c: chan[int], n: int): unit { stable one(c, n); s(c, n + 1) }
fn take(c: chan[int], d: chan[int]): int {
    let q = pick(d, c); print(fst(q)); if probe() < 0 { stabilize() } else { snd(q) }
}
fn p(c: chan[int], d: chan[int], n: int): unit {
    print(stable take(c, d)); if n == 3 { cut() } else { () }; if n == 0 { () } else { p(c, d, n - 1) }
}
fn main(): unit { let c = chan[int](); let d = chan[int](); spawn s(c, 10); spawn s(d, 20); spawn s(d, 30); p(c, d, 9) }";

// Pins before and after what depends on a section.
const PINS: &str = "
fn b(c: chan[int], k: chan[int], n: int): unit {
    if n % 2 == 0 { pin(); recv(c) } else { let m = recv(c); if m == 3 { pin() } else { () }; m };
    send(k, n); b(c, k, n + 1)
}
fn part(c: chan[int], k: chan[int], n: int): unit { send(c, n); print(recv(k)); if probe() < 0 { stabilize() } else { () } }
fn a(c: chan[int], k: chan[int], n: int): unit { stable part(c, k, n); print(n); if n == 0 { cut() } else { a(c, k, n - 1) } }
fn main(): unit { let c = chan[int](); let k = chan[int](); spawn b(c, k, 0); spawn b(c, k, 1); spawn a(c, k, 3); a(c, k, 4) }";

// Sections that are tried a few times, and threads that fail in them.
const TRIES: &str = "
fn part(r: ref[int], n: int): int {
    set(r, get(r) * 1000 + n); print(get(r));
    if attempt() < 2 { stabilize() } else { if probe() < 0 { pin(); stabilize() } else { attempt() } }
}
fn over(r: ref[int], n: int): unit { print(stable part(r, n)); over(r, n + get(r)) }
fn main(): unit {
    let r = ref(1); spawn over(r, 7); spawn over(r, 0 - 5); print(stable part(r, 2)); cut(); over(r, 1); print(get(3))
}";

// Requests with references and channels that the asker made.
const REQUESTS: &str = "
fn server(q: chan[(int, (chan[int], ref[int]))]): unit { stable serve(q); server(q) }
fn serve(q: chan[(int, (chan[int], ref[int]))]): unit {
    let m = recv(q); let d = fst(snd(m)); let r = snd(snd(m)); let v = get(r); set(r, v + fst(m));
    if probe() < 0 { stabilize() } else { send(d, v) }
}
fn ask(q: chan[(int, (chan[int], ref[int]))], n: int): int {
    let d = chan[int](); let r = ref(n); send(q, (n, (d, r))); let v = recv(d);
    if probe() < 0 { stabilize() } else { print(get(r)); v }
}
fn t(q: chan[(int, (chan[int], ref[int]))], n: int): unit {
    print(stable ask(q, n)); if n % 3 == 0 { cut() } else { () }; if n == 0 { pin() } else { t(q, n - 1) }
}
fn main(): unit { let q = chan[(int, (chan[int], ref[int]))](); spawn server(q); spawn server(q); spawn t(q, 5); t(q, 3) }";

pub(super) const TEXTS: [&str; 10] = [
    CASCADE, QUEUE, WRITES, NESTED, CHILDREN, PARTNER, PICKS, PINS, TRIES, REQUESTS,
];
