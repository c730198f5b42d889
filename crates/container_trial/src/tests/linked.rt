//! Lists that places come into and leave.

use super::is;
use linked_lists::Lists;
use stab_base::NoMemory;
use std::alloc::Global;
use std::test::Fail;

// So many lists and places.
fn made(alloc: Global, lists: u32, places: u32) -> Result<Lists, NoMemory> {
    let mut made = Lists::new(alloc);
    for _ in 0..lists {
        made.reserve_lists(1)?;
        made.add_list();
    }
    for _ in 0..places {
        made.reserve(1)?;
        made.add_place();
    }
    Ok(made)
}

// Takes a place from where it stands to the tail of a list.
fn put(lists: &mut Lists, list: usize, place: usize) {
    if list < lists.lists() && 1 <= place && place <= lists.places() {
        lists.leave(place);
        lists.push(list, place);
    }
}

fn take(lists: &mut Lists, place: usize) {
    if 1 <= place && place <= lists.places() {
        lists.leave(place);
    }
}

fn next(lists: &Lists, place: usize) -> Option<usize> {
    if 1 <= place && place <= lists.places() {
        lists.next(place)
    } else {
        None
    }
}

fn first(lists: &Lists, list: usize) -> Option<usize> {
    if list < lists.lists() {
        lists.first(list)
    } else {
        None
    }
}

// The first three places of a list.
fn order(lists: &Lists, list: usize) -> [Option<usize>; 3] {
    let one = first(lists, list);
    let two = after(lists, one);
    [one, two, after(lists, two)]
}

fn after(lists: &Lists, place: Option<usize>) -> Option<usize> {
    match place {
        Some(place) => next(lists, place),
        None => None,
    }
}

#[test]
fn a_place_leaves_the_middle(rt: HostRuntime) -> Result<(), Fail> {
    let mut lists = made(rt.alloc(), 2, 4)?;
    put_all(&mut lists);
    let orders = orders(&mut lists);
    let wanted = [
        [Some(3), Some(1), Some(4)],
        [Some(3), Some(4), None],
        [None; 3],
        [Some(4), None, None],
        [Some(2), Some(3), None],
    ];
    is(&rt, &orders, &wanted);
    Ok(())
}

fn put_all(lists: &mut Lists) {
    for (list, place) in [(0, 3), (0, 1), (0, 4), (1, 2)] {
        put(lists, list, place);
    }
}

// The first list, the same once place 1 was taken and what is then behind that, and both lists once place 3 changed over.
fn orders(lists: &mut Lists) -> [[Option<usize>; 3]; 5] {
    let first = order(lists, 0);
    take(lists, 1);
    let without_one = order(lists, 0);
    let behind_one = [next(lists, 1), None, None];
    put(lists, 1, 3);
    [
        first,
        without_one,
        behind_one,
        order(lists, 0),
        order(lists, 1),
    ]
}

#[test]
fn room_for_many(rt: HostRuntime) -> Result<(), Fail> {
    let mut lists = Lists::new(rt.alloc());
    let reserved = [lists.reserve(100_000), lists.reserve_lists(100_000)];
    is(&rt, &reserved, &[Ok(()); 2]);
    Ok(())
}

#[test]
fn many_lists_and_places(rt: HostRuntime) -> Result<(), Fail> {
    let many = made(rt.alloc(), 1000, 1000)?;
    is(&rt, &(many.lists(), many.places()), &(1000, 1000));
    Ok(())
}
