//! Numbers that come while a program runs.

use super::{expect, is, parts};
use number_source::{Bell, Came, InputSource, MemSource, NumberSource};
use std::alloc::{AllocError, Global};
use std::collections::VecDeque;
use std::io::{self, ErrorKind, Read};
use std::process::Abort;
use std::sync::Wait;
use std::test::Fail;

// Inputs, with the answers to them: the number of each line as in a probe file, and then the end or the first line that is none.
const INPUTS: &str = "\
\x20-> End\n\
| -> End\n\
5 -> 5 End\n\
5| -> 5 End\n\
5|x| -> 5 Bad(2)\n\
5|x -> 5 Bad(2)\n\
-1|-1|5| -> -1 -1 5 End\n\
1||2| -> 1 2 End\n\
\r|| \t|7| -> 7 End\n\
\x20\t 8 \t | -> 8 End\n\
5\r|6\r| -> 5 6 End\n\
5\r -> 5 End\n\
5\r\r| -> Bad(0)\n\
8\r | -> Bad(0)\n\
1|12x|3| -> 1 Bad(2)\n\
12x -> Bad(0)\n\
1|  y|2| -> 1 Bad(2)\n\
1|2\u{a0}| -> 1 Bad(2)\n\
1 2| -> Bad(0)\n\
-| -> Bad(0)\n\
+5| -> Bad(0)\n\
007|-000| -> 7 0 End\n\
9223372036854775807|-9223372036854775808| -> 9223372036854775807 -9223372036854775808 End\n\
9223372036854775808| -> Bad(0)\n\
1||-9223372036854775809 -> 1 Bad(3)\n\
99999999999999999999999999| -> Bad(0)\n\
";

// An input in memory.
fn input(alloc: Global, bytes: &[u8]) -> Result<VecDeque<u8>, Fail> {
    let mut held = VecDeque::new(alloc);
    for byte in bytes {
        held.push_back(*byte)?;
    }
    Ok(held)
}

// Whether no other answer comes after it.
fn is_last(answer: &Came) -> bool {
    !matches!(answer, Came::Number(_) | Came::Nothing)
}

// The text of an answer.
fn told(alloc: Global, answer: Came) -> Result<String, AllocError> {
    match answer {
        Came::Number(number) => format!(in alloc; "{number}"),
        other => format!(in alloc; "{other:?}"),
    }
}

// The answers of a source, by a caller that knows it by its trait alone.
fn answers<S: NumberSource>(
    rt: &impl Wait,
    alloc: Global,
    source: &mut S,
    wait: bool,
) -> Result<String, Fail> {
    let mut out = String::new(alloc);
    for _ in 0..100 {
        let answer = source.take(rt, wait);
        if !out.is_empty() {
            out.push(' ')?;
        }
        out.push_str(told(alloc, answer)?.as_str())?;
        if is_last(&answer) {
            break;
        }
    }
    Ok(out)
}

#[test]
fn inputs(rt: HostRuntime) -> Result<(), Fail> {
    for row in INPUTS.lines() {
        let (text, wanted) = parts(rt.alloc(), row)?;
        let held = input(rt.alloc(), text.as_bytes())?;
        let mut source = InputSource::new(&rt, rt.alloc(), held)?;
        let found = answers(&rt, rt.alloc(), &mut source, true)?;
        expect(&rt, row, found.as_str(), wanted);
        is(&rt, &source.bell().has_rung(), &true);
    }
    Ok(())
}

// A caller that doesn't wait sees the same, but for the times at which nothing is there.
#[test]
fn without_waiting(rt: HostRuntime) -> Result<(), Fail> {
    let held = input(rt.alloc(), b"3\n4\nx")?;
    let mut source = InputSource::new(&rt, rt.alloc(), held)?;
    let mut found = vec![in rt.alloc()]?;
    for _ in rt.forever() {
        let answer = source.take(&rt, false);
        if !matches!(answer, Came::Nothing) {
            found.push(answer)?;
        }
        if is_last(&answer) {
            break;
        }
    }
    let wanted = vec![in rt.alloc(); Came::Number(3), Came::Number(4), Came::Bad(4)]?;
    is(&rt, &found, &wanted);
    Ok(())
}

// More numbers than the queue has room for.
#[test]
fn many_numbers(rt: HostRuntime) -> Result<(), Fail> {
    let mut text = String::new(rt.alloc());
    for number in 0..10_000 {
        text.push_str(format!(in rt.alloc(); "{number}\n")?.as_str())?;
    }
    let held = input(rt.alloc(), text.as_bytes())?;
    let mut source = InputSource::new(&rt, rt.alloc(), held)?;
    for number in 0..10_000 {
        is(&rt, &source.take(&rt, true), &Came::Number(number));
    }
    is(&rt, &source.take(&rt, true), &Came::End);
    Ok(())
}

// A first line, then a byte so often and an end: a line may have 1,048,576 bytes before its line feed.
fn long_input(
    alloc: Global,
    byte: u8,
    times: usize,
    end: &[u8],
) -> Result<VecDeque<u8>, AllocError> {
    let mut held = VecDeque::new(alloc);
    held.push_back(b'1')?;
    held.push_back(b'\n')?;
    for _ in 0..times {
        held.push_back(byte)?;
    }
    for byte in end {
        held.push_back(*byte)?;
    }
    Ok(held)
}

#[test]
fn long_lines(rt: HostRuntime) -> Result<(), Fail> {
    let table: [(u8, usize, &[u8], &str); 5] = [
        (b'0', 1_048_575, b"7", "1 7 End"),
        (b'0', 1_048_575, b"7\n8\n", "1 7 8 End"),
        (b'0', 1_048_576, b"7\n8\n", "1 Bad(2)"),
        (b' ', 1_048_574, b"-3\n", "1 -3 End"),
        (b' ', 1_048_577, b"", "1 Bad(2)"),
    ];
    for (byte, times, end, wanted) in table {
        let held = long_input(rt.alloc(), byte, times, end)?;
        let mut source = InputSource::new(&rt, rt.alloc(), held)?;
        let found = answers(&rt, rt.alloc(), &mut source, true)?;
        expect(&rt, wanted, found.as_str(), wanted);
    }
    Ok(())
}

// An input whose reads are those of `held`, after some that are interrupted, and then fail.
#[derive(Drop)]
struct Broken {
    held: VecDeque<u8>,
    interrupts: u8,
}

impl Read for Broken {
    fn read(&mut self, buf: &mut [u8]) -> io::Result<usize> {
        if self.interrupts > 0 {
            self.interrupts -= 1;
            return Err(io::Error::from(ErrorKind::Interrupted));
        }
        if self.held.is_empty() {
            return Err(io::Error::from(ErrorKind::InvalidData));
        }
        self.held.read(buf)
    }
}

// What was read of a line says nothing where a read fails in it.
#[test]
fn failed_reads(rt: HostRuntime) -> Result<(), Fail> {
    let table: [(&[u8], &str); 4] = [
        (b"", "Failed"),
        (b"5\n", "5 Failed"),
        (b"5\n6", "5 Failed"),
        (b"5\nx\n", "5 Bad(2)"),
    ];
    for (bytes, wanted) in table {
        let broken = Broken {
            held: input(rt.alloc(), bytes)?,
            interrupts: 2,
        };
        let mut source = InputSource::new(&rt, rt.alloc(), broken)?;
        let found = answers(&rt, rt.alloc(), &mut source, true)?;
        expect(&rt, wanted, found.as_str(), wanted);
        is(
            &rt,
            &told(rt.alloc(), source.take(&rt, false))?,
            &last_word(rt.alloc(), wanted)?,
        );
    }
    Ok(())
}

fn last_word(alloc: Global, text: &str) -> Result<String, Fail> {
    let word = text.rsplit(' ').next().ok_or("no word")?;
    Ok(String::from_str(alloc, word)?)
}

const TWO: Came = Came::Number(2);

// Plans of sources in memory, and what is answered to a caller that waits and to one that doesn't.
const PLANS: [(&[Came], &str, &str); 6] = [
    (&[], "End", "End"),
    (&[TWO, Came::Nothing], "2 End", "2 Nothing End"),
    (
        &[Came::Nothing, Came::Nothing, TWO, Came::Bad(7), TWO],
        "2 Bad(7)",
        "Nothing Nothing 2 Bad(7)",
    ),
    (&[Came::End, TWO], "End", "End"),
    (&[TWO, TWO, Came::Failed], "2 2 Failed", "2 2 Failed"),
    (&[Came::Bad(0)], "Bad(0)", "Bad(0)"),
];

#[test]
fn plans(rt: HostRuntime) -> Result<(), Fail> {
    for (plan, waiting, looking) in PLANS {
        for (wait, wanted) in [(true, waiting), (false, looking)] {
            let plan = Vec::from_slice(rt.alloc(), plan)?;
            let mut source = MemSource::new(rt.alloc(), plan)?;
            let found = answers(&rt, rt.alloc(), &mut source, wait)?;
            expect(&rt, wanted, found.as_str(), wanted);
            is(
                &rt,
                &told(rt.alloc(), source.take(&rt, wait))?,
                &last_word(rt.alloc(), wanted)?,
            );
        }
    }
    Ok(())
}

// A source in memory rings at first, and behind each gap.
#[test]
fn rings_of_a_plan(rt: HostRuntime) -> Result<(), Fail> {
    let plan = vec![in rt.alloc(); TWO, Came::Nothing, TWO]?;
    let mut source = MemSource::new(rt.alloc(), plan)?;
    is(&rt, &source.bell().has_rung(), &true);
    for rung in [false, true, false, false] {
        source.bell().silence();
        source.take(&rt, false);
        is(&rt, &source.bell().has_rung(), &rung);
    }
    Ok(())
}

#[test]
fn bells(rt: HostRuntime) -> Result<(), Fail> {
    let bell = Bell::new(rt.alloc())?;
    let other = bell.share()?;
    is(&rt, &(bell.has_rung(), other.has_rung()), &(false, false));
    other.ring();
    is(&rt, &(bell.has_rung(), other.has_rung()), &(true, true));
    bell.silence();
    is(&rt, &(bell.has_rung(), other.has_rung()), &(false, false));
    Ok(())
}
