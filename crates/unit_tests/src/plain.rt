//! Lists and texts are made, copied and compared.
use crate::instances::is_copied;
use lists::{List, Plain, Text};
use std::alloc::{AllocError, Global};
use std::test::Fail;

type Row = (u32, Option<Text>);

#[test]
fn copies_are_the_same(rt: HostRuntime) -> Result<(), Fail> {
    assert!(rt; copies_rows(rt.alloc())?);
    Ok(())
}

fn copies_rows(alloc: Global) -> Result<bool, AllocError> {
    let mut rows: List<Row> = List::new(alloc);
    let was_empty = rows.is_empty();
    match push_two(&mut rows, Text::from_str(alloc, "é")) {
        Ok(()) => copies_two(&rows, was_empty),
        Err(error) => Err(error),
    }
}

/// Pushes a row with a text, and one without.
fn push_two(rows: &mut List<Row>, text: Result<Text, AllocError>) -> Result<(), AllocError> {
    match text {
        Ok(text) => rows.push((1, Some(text)))?,
        Err(error) => return Err(error),
    }
    rows.push((2, None))
}

fn copies_two(rows: &List<Row>, was_empty: bool) -> Result<bool, AllocError> {
    Ok(was_empty && is_copied(rows)? && differs_with_a_row_more(rows)?)
}

/// Whether a copy of two rows differs from them once it has a third.
fn differs_with_a_row_more(rows: &List<Row>) -> Result<bool, AllocError> {
    match rows.copy() {
        Ok(mut copy) => {
            let length = copy.len();
            match copy.push((3, None)) {
                Ok(()) => Ok(length == 2 && !rows.same(&copy)),
                Err(error) => Err(error),
            }
        }
        Err(error) => Err(error),
    }
}

#[test]
fn gives_back_what_a_list_is_made_of(rt: HostRuntime) -> Result<(), Fail> {
    assert!(rt; gives_back_list(rt.alloc())?);
    Ok(())
}

fn gives_back_list(alloc: Global) -> Result<bool, AllocError> {
    match Vec::from_slice(alloc, &[true, false]) {
        Ok(items) => is_given_back(List::from_vec(items)),
        Err(error) => Err(error),
    }
}

fn is_given_back(list: List<bool>) -> Result<bool, AllocError> {
    let copied = is_copied(&list);
    let items = list.into_vec();
    match copied {
        Ok(copied) => Ok(copied && items.as_slice() == [true, false].as_slice()),
        Err(error) => Err(error),
    }
}

#[test]
fn gives_back_what_a_text_is_made_of(rt: HostRuntime) -> Result<(), Fail> {
    assert!(rt; gives_back_text(rt.alloc())? && is_copied(&7u64)?);
    Ok(())
}

fn gives_back_text(alloc: Global) -> Result<bool, AllocError> {
    match String::from_str(alloc, "a\"b") {
        Ok(string) => gives_back(&Text::from_string(string)),
        Err(error) => Err(error),
    }
}

fn gives_back(text: &Text) -> Result<bool, AllocError> {
    match text.copy() {
        Ok(copy) => Ok(copy.into_string().as_str() == text.as_str() && text.as_str() == "a\"b"),
        Err(error) => Err(error),
    }
}
