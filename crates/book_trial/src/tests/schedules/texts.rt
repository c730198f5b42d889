//! Texts of programs, and what their probes get.

// Numbers that a thread receives from a section and writes down, where others see them.
const RELAY: &str = "
fn watch(r: ref[int]): unit { get(r); watch(r) }
fn relay(c: chan[int], r: ref[int]): unit { set(r, recv(c)); relay(c, r) }
fn hand(c: chan[int], n: int): unit { send(c, n); print(n); if probe() < 0 { stabilize() } }
fn source(c: chan[int], n: int): unit { stable hand(c, n); if n % 3 == 2 { cut() }; source(c, n + 1) }
fn main(): unit {
    let c = chan[int](); let r = ref(0);
    spawn relay(c, r); spawn source(c, 0); spawn watch(r); watch(r)
}";

// Takers of a stock that wait until it is enough for them, and one who fills it.
const STOCK: &str = "
fn take(r: ref[int], n: int): int {
    let had = get(r); set(r, had - n);
    if get(r) < 0 { stabilize() } else { if probe() < 0 { stabilize() } else { had } }
}
fn taker(r: ref[int], n: int): unit { print(stable take(r, n)); taker(r, n) }
fn bringer(r: ref[int], n: int): unit { set(r, get(r) + 3); if n % 4 == 3 { cut() }; bringer(r, n + 1) }
fn main(): unit { let r = ref(3); spawn taker(r, 2); spawn taker(r, 5); bringer(r, 0) }";

// Draws of two lots, each written down in its section.
const LOTS: &str = "
fn lot(c: chan[int], n: int): unit { send(c, n); lot(c, n + 1) }
fn draw(c: chan[int], d: chan[int], r: ref[int]): unit {
    let p = pick(c, d); set(r, snd(p)); print(fst(p)); if probe() < 0 { stabilize() }
}
fn drawer(c: chan[int], d: chan[int], r: ref[int], n: int): unit {
    stable draw(c, d, r); if n % 3 == 2 { cut() }; drawer(d, c, r, n + 1)
}
fn watch(r: ref[int], n: int): unit { if get(r) % 5 == n { pin() }; watch(r, n) }
fn main(): unit {
    let c = chan[int](); let d = chan[int](); let r = ref(0);
    spawn lot(c, 0); spawn lot(d, 20); spawn drawer(c, d, r, 0); spawn watch(r, 3); watch(r, 4)
}";

// Sections with a helper each, that are tried as often as their number asks.
const HELPERS: &str = "
fn helper(c: chan[int], n: int): unit { send(c, n * n); print(n) }
fn part(r: ref[int], n: int): int {
    let c = chan[int](); set(r, get(r) + 1); spawn helper(c, n + attempt()); let v = recv(c);
    if attempt() < n % 3 { stabilize() } else { if probe() < 0 { stabilize() } else { v } }
}
fn worker(r: ref[int], n: int): unit { print(stable part(r, n)); if n % 4 == 0 { cut() }; worker(r, n + 1) }
fn main(): unit { let r = ref(0); spawn worker(r, 1); spawn worker(r, 2); worker(r, 3) }";

// Sections in sections, what they write being kept for good at times.
const KEEPERS: &str = "
fn inner(r: ref[int], n: int): int { set(r, n); if probe() < 0 { stabilize() } else { n + 1 } }
fn outer(r: ref[int], n: int): int {
    let a = stable inner(r, n); let b = stable inner(r, a); print(b);
    if probe() < 0 { stabilize() } else { b }
}
fn keeper(r: ref[int], c: chan[int]): unit { let v = get(r); if v % 5 == 4 { pin(); send(c, v) }; keeper(r, c) }
fn walk(r: ref[int], n: int): unit { let m = stable outer(r, n); if m % 4 == 0 { cut() }; walk(r, m) }
fn sink(c: chan[int]): unit { print(recv(c)); sink(c) }
fn main(): unit {
    let r = ref(0); let c = chan[int]();
    spawn sink(c); spawn keeper(r, c); spawn walk(r, 1); walk(r, 2)
}";

// One thread whose pure steps are many.
const COLLATZ: &str = "
fn steps(n: int, k: int): int {
    if n == 1 { k } else { if n % 2 == 0 { steps(n / 2, k + 1) } else { steps(3 * n + 1, k + 1) } }
}
fn main(): unit { print(steps(6, 0)); print(steps(27, 0)); print((true, \"end\")) }";

// Means of numbers that are given, until their number is 0.
const MEANS: &str = "
fn total(n: int): int { if n == 0 { 0 } else { probe() + total(n - 1) } }
fn means(): unit { let n = probe(); print(total(n) / n); means() }
fn main(): unit { means() }";

// The first primes, as many as asked for, each with a thread that lets its multiples out.
const SIEVE: &str = "
fn numbers(c: chan[int], n: int): unit { send(c, n); numbers(c, n + 1) }
fn others(p: int, c: chan[int], d: chan[int]): unit { let n = recv(c); if n % p != 0 { send(d, n) }; others(p, c, d) }
fn primes(c: chan[int], k: int): unit {
    let p = recv(c); print(p);
    if k > 1 { let d = chan[int](); spawn others(p, c, d); primes(d, k - 1) }
}
fn main(): unit { let c = chan[int](); spawn numbers(c, 2); primes(c, probe()) }";

// Threads that write one reference of a pair.
const PAIRS: &str = "
fn raise(r: ref[(int, int)], n: int): unit {
    let p = get(r); set(r, (snd(p), fst(p) + snd(p))); if n > 0 { raise(r, n - 1) } else { print(get(r)) }
}
fn main(): unit { let r = ref((0, 1)); spawn raise(r, 5); spawn raise(r, 4); raise(r, 3); print(ref(r)) }";

// Asks for the sums of the first numbers, as many as asked for: at the first and then at each ninth an ask is taken back once, and
// behind each 25th stands a cut.
pub(super) const SUMS: &str = "
fn adder(q: chan[int], a: chan[int], r: ref[int]): unit { set(r, get(r) + recv(q)); send(a, get(r)); adder(q, a, r) }
fn ask(q: chan[int], a: chan[int], n: int): int {
    send(q, n); let v = recv(a); if attempt() * 9 < n { stabilize() } else { v }
}
fn asks(q: chan[int], a: chan[int], n: int, last: int): unit {
    print(stable ask(q, a, n)); if n % 25 == 0 { cut() }; if n < last { asks(q, a, n + 1, last) }
}
fn main(): unit {
    let q = chan[int](); let a = chan[int](); let r = ref(0);
    let last = probe(); spawn adder(q, a, r); asks(q, a, 1, last)
}";

// What probes get in sections: about half of it takes them back.
const MIXED: &[i64] = &[-1, 1, -1, -1, 1, 1, -1, 1, -1, -1];

// Texts and what their probes get. Those with sections and cuts come first.
pub(super) const TEXTS: [(&str, &[i64]); 10] = [
    (RELAY, MIXED),
    (STOCK, MIXED),
    (LOTS, MIXED),
    (HELPERS, MIXED),
    (KEEPERS, MIXED),
    (COLLATZ, &[]),
    (MEANS, &[3, 4, 5, 6, 2, 10, 20, 1, 7]),
    (SIEVE, &[5]),
    (PAIRS, &[]),
    (SUMS, &[6]),
];
