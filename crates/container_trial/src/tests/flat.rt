//! Lists that stand one behind the other.

use super::is;
use flat_lists::FlatLists;
use stab_base::{NoMemory, Same};
use std::alloc::Global;
use std::test::Fail;

// So many lists: the list of number n has n % 4 items, which are n.
fn rising(alloc: Global, lists: u32) -> Result<FlatLists<i64>, NoMemory> {
    let mut made = FlatLists::new(alloc);
    for n in 0..lists {
        let items = [i64::from(n); 4];
        made.push(&items[..(n % 4) as usize])?;
    }
    Ok(made)
}

fn has(lists: &FlatLists<i64>, i: usize, list: &[i64]) -> bool {
    i < lists.len() && lists.of(i) == list
}

fn push_all(lists: &mut FlatLists<i64>, all: &[&[i64]]) -> Result<(), NoMemory> {
    for list in all {
        lists.push(list)?;
    }
    Ok(())
}

#[test]
fn keeps_each_list(rt: HostRuntime) -> Result<(), Fail> {
    let mut lists = FlatLists::with_capacity(rt.alloc(), 3, 3)?;
    push_all(&mut lists, &[&[4, 2], &[], &[7]])?;
    let kept = [
        has(&lists, 0, &[4, 2]),
        has(&lists, 1, &[]),
        has(&lists, 2, &[7]),
    ];
    is(&rt, &(lists.len(), kept), &(3, [true; 3]));
    Ok(())
}

fn lists_of(alloc: Global, all: &[&[i64]]) -> Result<FlatLists<i64>, NoMemory> {
    let mut lists = FlatLists::new(alloc);
    push_all(&mut lists, all)?;
    Ok(lists)
}

fn are_same(alloc: Global, one: &[&[i64]], other: &[&[i64]]) -> Result<bool, NoMemory> {
    let one = lists_of(alloc, one)?;
    let other = lists_of(alloc, other)?;
    Ok(one.same(&other))
}

// Whether lists are the same as themselves, as those that are cut elsewhere, and as those with another item.
fn told_apart(alloc: Global) -> Result<[bool; 3], NoMemory> {
    let lists: [&[i64]; 2] = [&[1, 2], &[3]];
    let itself = are_same(alloc, &lists, &lists)?;
    let elsewhere = are_same(alloc, &lists, &[&[1], &[2, 3]])?;
    Ok([
        itself,
        elsewhere,
        are_same(alloc, &lists, &[&[1, 2], &[4]])?,
    ])
}

#[test]
fn tells_lists_apart(rt: HostRuntime) -> Result<(), Fail> {
    let same = told_apart(rt.alloc())?;
    is(&rt, &same, &[true, false, false]);
    Ok(())
}

// The first of so many lists that isn't the rising one.
fn first_wrong(lists: &FlatLists<i64>, count: u32) -> Option<u32> {
    for n in 0..count {
        let items = [i64::from(n); 4];
        if !has(lists, n as usize, &items[..(n % 4) as usize]) {
            return Some(n);
        }
    }
    None
}

#[test]
fn keeps_many(rt: HostRuntime) -> Result<(), Fail> {
    let lists = rising(rt.alloc(), 1_000_000)?;
    let found = (lists.len(), first_wrong(&lists, 1_000_000));
    is(&rt, &found, &(1_000_000, None));
    Ok(())
}

fn is_rising(alloc: Global, lists: &FlatLists<i64>, count: u32) -> Result<bool, NoMemory> {
    let rising = rising(alloc, count)?;
    Ok(lists.same(&rising))
}

// Whether a million lists are as many rising ones, and one fewer.
fn compared(alloc: Global) -> Result<[bool; 2], NoMemory> {
    let lists = rising(alloc, 1_000_000)?;
    let same = is_rising(alloc, &lists, 1_000_000)?;
    Ok([same, is_rising(alloc, &lists, 999_999)?])
}

#[test]
fn compares_many(rt: HostRuntime) -> Result<(), Fail> {
    let same = compared(rt.alloc())?;
    is(&rt, &same, &[true, false]);
    Ok(())
}
