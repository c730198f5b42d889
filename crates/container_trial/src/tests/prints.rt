//! Prints of which some are struck, by hand and beside a plain list.
ghost use Rattle.std.specs.Prelude.{◌<◌};
ghost use Rattle.std.specs.List.{AllByRecursion};
ghost use Rattle.std.proofs.Props.{props};

use super::is;
use print_log::{PrintLog, Values};
use stab_base::{NoMemory, Seq, Value};
use std::alloc::Global;
use std::test::Fail;

/// A log whose prints are numbered 1, 2, 3.
#[derive(Drop)]
struct Printing {
    log: PrintLog,
    /// The number of the next print.
    next: u64,
    ghost below: { AllByRecursion (λ p. p.number < next) log.recent } by { Prim.hlevel props },
}

impl Printing {
    fn new(alloc: Global) -> Printing {
        Printing {
            log: PrintLog::new(alloc),
            next: 1,
        }
    }

    fn print(&mut self, integer: i64) -> Result<(), NoMemory> {
        let q = self.next;
        if q < u64::MAX {
            self.log.reserve()?;
            self.log.push(Seq(q), Value::int(integer));
            self.next = q + 1;
        }
        Ok(())
    }

    fn strike(&mut self, q: u64) {
        self.log.strike(Seq(q));
    }

    fn cut(&mut self) -> Result<(), NoMemory> {
        self.log.reserve_cut()?;
        self.log.cut();
        Ok(())
    }
}

// Whether the values are these integers.
fn are(values: Values<'_>, integers: &[i64]) -> bool {
    let mut left = integers;
    for value in values {
        match left.split_first() {
            Some((integer, others)) if value.same(&Value::int(*integer)) => left = others,
            _ => return false,
        }
    }
    left.is_empty()
}

// Whether so many values are final, and all from there on are these integers.
fn ends(log: &PrintLog, finals: usize, integers: &[i64]) -> bool {
    finals == log.finals().len() && are(log.values_from(finals), integers)
}

fn print_all(printing: &mut Printing, integers: &[i64]) -> Result<(), NoMemory> {
    for integer in integers {
        printing.print(*integer)?;
    }
    Ok(())
}

// Whether the second of three prints is gone when it was struck, and then the third.
fn are_gone(printing: &mut Printing) -> [bool; 2] {
    printing.strike(2);
    let second = are(printing.log.values(), &[10, 30]);
    printing.strike(3);
    [second, are(printing.log.values(), &[10])]
}

#[test]
fn a_struck_print_is_gone(rt: HostRuntime) -> Result<(), Fail> {
    let mut printing = Printing::new(rt.alloc());
    let none = are(printing.log.values(), &[]);
    print_all(&mut printing, &[10, 20, 30])?;
    let gone = are_gone(&mut printing);
    printing.strike(3);
    printing.print(40)?;
    let left = are(printing.log.values(), &[10, 40]) && ends(&printing.log, 0, &[10, 40]);
    is(&rt, &(none, gone, left), &(true, [true; 2], true));
    Ok(())
}

// Three prints, of which the first and the third are final, and two more.
fn print_and_cut(printing: &mut Printing) -> Result<(), NoMemory> {
    print_all(printing, &[10, 20, 30])?;
    printing.strike(2);
    printing.cut()?;
    printing.strike(1);
    print_all(printing, &[40, 50])
}

// Whether those are left once one was struck, and then cuts were made.
fn are_left(printing: &mut Printing) -> Result<[bool; 3], NoMemory> {
    printing.strike(4);
    let struck = ends(&printing.log, 2, &[50]);
    printing.cut()?;
    printing.cut()?;
    let all = are(printing.log.values(), &[10, 30, 50]);
    Ok([struck, ends(&printing.log, 3, &[]), all])
}

#[test]
fn a_final_value_stays(rt: HostRuntime) -> Result<(), Fail> {
    let mut printing = Printing::new(rt.alloc());
    print_and_cut(&mut printing)?;
    let whole = are(printing.log.values(), &[10, 30, 40, 50]);
    let left = are_left(&mut printing)?;
    is(&rt, &(whole, left), &(true, [true; 3]));
    Ok(())
}

#[derive(Clone, Copy)]
enum Call {
    Print,
    /// Strikes the print of this number, where it is above the last cut.
    Strike(u64),
    Cut,
}

const TWENTY_FOUR: [Call; 24] = [
    Call::Print,
    Call::Print,
    Call::Print,
    Call::Strike(1),
    Call::Print,
    Call::Strike(3),
    Call::Strike(4),
    Call::Print,
    Call::Strike(2),
    Call::Cut,
    Call::Strike(5),
    Call::Print,
    Call::Print,
    Call::Strike(7),
    Call::Strike(6),
    Call::Strike(6),
    Call::Cut,
    Call::Print,
    Call::Print,
    Call::Print,
    Call::Strike(9),
    Call::Cut,
    Call::Print,
    Call::Strike(11),
];

// The same on a list of numbers, of which `finals` are final.
fn on_list(plain: &mut Vec<i64>, finals: &mut usize, call: Call, next: u64) -> Result<(), Fail> {
    match call {
        Call::Print => plain.push(next.cast_signed())?,
        Call::Strike(q) => {
            if let Some(i) = plain.iter().position(|number| number.cast_unsigned() == q) {
                if i >= *finals && i < plain.len() {
                    let _struck = plain.remove(i);
                }
            }
        }
        Call::Cut => *finals = plain.len(),
    }
    Ok(())
}

// Each print prints its number.
#[test]
fn prints_beside_a_list(rt: HostRuntime) -> Result<(), Fail> {
    let mut printing = Printing::new(rt.alloc());
    let mut plain = Vec::new(rt.alloc());
    let apart = first_apart(&mut printing, &mut plain)?;
    is(&rt, &apart, &None);
    Ok(())
}

fn apply(printing: &mut Printing, call: Call) -> Result<(), NoMemory> {
    match call {
        Call::Print => printing.print(printing.next.cast_signed()),
        Call::Strike(q) => {
            printing.strike(q);
            Ok(())
        }
        Call::Cut => printing.cut(),
    }
}

// How many calls were made when both first had other values or another number of final ones.
fn first_apart(printing: &mut Printing, plain: &mut Vec<i64>) -> Result<Option<usize>, Fail> {
    let mut finals = 0;
    for (calls, call) in TWENTY_FOUR.iter().enumerate() {
        on_list(plain, &mut finals, *call, printing.next)?;
        apply(printing, *call)?;
        if !are(printing.log.values(), plain) || printing.log.finals().len() != finals {
            return Ok(Some(calls));
        }
    }
    Ok(None)
}

// Of 100,000 prints those whose numbers three doesn't divide are struck, half of them before a cut.
#[test]
fn many_prints(rt: HostRuntime) -> Result<(), Fail> {
    let mut printing = Printing::new(rt.alloc());
    print_from(&mut printing, 1, 50_001)?;
    strike_of_three(&mut printing, 1, 50_001);
    printing.cut()?;
    print_from(&mut printing, 50_001, 100_001)?;
    strike_of_three(&mut printing, 50_001, 100_001);
    let finals = printing.log.finals().len();
    is(
        &rt,
        &(are_threes(printing.log.values()), finals),
        &(true, 16_666),
    );
    Ok(())
}

fn print_from(printing: &mut Printing, first: i64, end: i64) -> Result<(), NoMemory> {
    for i in first..end {
        printing.print(i)?;
    }
    Ok(())
}

// Whether the values are the numbers up to 100,000 that three divides.
fn are_threes(values: Values<'_>) -> bool {
    let mut last = 0i64;
    for value in values {
        last = last.saturating_add(3);
        if !value.same(&Value::int(last)) {
            return false;
        }
    }
    last == 99_999
}

// Strikes the numbers from `first` on and below `end` that three doesn't divide.
fn strike_of_three(printing: &mut Printing, first: u64, end: u64) {
    for q in first..end {
        if q % 3 != 0 {
            printing.strike(q);
        }
    }
}
