//! Tests of `overlapping` and `shift`, which read from an offset on and write to the front.

use crate::tests::checks::{equal, holds, same};
use crate::tests::items::{Item, hold};
use aead_ciphers_base::error::{IndexError, InputTooLongError, LenMismatchError};
use aead_ciphers_base::overlapping::{Array, Overlapping, PartialBlock};
use aead_ciphers_base::shift::shift_full_blocks;
use std::process::Abort;
use std::test::Fail;

#[test]
fn input_begins_at_the_start(rt: HostRuntime) -> Result<(), Fail> {
    let mut items = [1u8, 2, 3, 4, 5, 6];
    let overlapping = Overlapping::new(&mut items, 2..)?;
    equal(&rt, overlapping.len(), 4, "the input's length");
    same(&rt, overlapping.input(), &[3, 4, 5, 6], "the input");
    let (whole, src) = overlapping.into_slice_src_mut();
    same(&rt, whole, &[1, 2, 3, 4, 5, 6], "the whole slice");
    equal(&rt, src.start, 2, "the start");
    Ok(())
}

#[test]
fn start_at_the_end_is_accepted_and_past_it_refused(rt: HostRuntime) -> Result<(), Fail> {
    let mut items = [1u8, 2, 3, 4, 5, 6];
    let overlapping = Overlapping::new(&mut items, 6..)?;
    equal(&rt, overlapping.len(), 0, "no item");
    same(&rt, overlapping.input(), &[], "no input");
    let refused = Overlapping::new(&mut items, 7..).err();
    equal(&rt, refused, Some(IndexError::new(7)), "the start");
    equal(&rt, IndexError::new(7).value(), 7, "the error's start");
    Ok(())
}

#[test]
fn from_a_slice_begins_at_zero(rt: HostRuntime) {
    let mut items = [Item(1), Item(2)];
    let overlapping = Overlapping::from(items.as_mut_slice());
    hold(&rt, overlapping.input(), &[1, 2]);
}

#[test]
fn copy_within_moves_the_input_to_the_front(rt: HostRuntime) -> Result<(), Fail> {
    let mut items = [1u8, 2, 3, 4, 5, 6];
    let front = Overlapping::new(&mut items, 2..)?.copy_within();
    same(&rt, front, &[3, 4, 5, 6], "the front");
    same(&rt, &items, &[3, 4, 5, 6, 5, 6], "the slice");
    Ok(())
}

#[test]
fn unwritten_output_is_the_front(rt: HostRuntime) -> Result<(), Fail> {
    let mut items = [Item(1), Item(2), Item(3)];
    let output = Overlapping::new(&mut items, 1..)?.into_unwritten_output();
    hold(&rt, output, &[1, 2]);
    for item in output.iter_mut() {
        *item = Item(9);
    }
    hold(&rt, &items, &[9, 9, 3]);
    Ok(())
}

#[test]
fn first_chunk_is_mapped_to_the_front(rt: HostRuntime) -> Result<(), Fail> {
    let mut items = [1u8, 2, 3, 4, 5, 6];
    let add_ten = |b: &[u8; 2]| [b[0].wrapping_add(10), b[1].wrapping_add(10)];
    let rest = Overlapping::new(&mut items, 2..)?.split_first_chunk(add_ten)?;
    same(&rt, rest.input(), &[5, 6], "the rest of the input");
    same(&rt, &items, &[13, 14, 3, 4, 5, 6], "the slice");
    Ok(())
}

#[test]
fn first_chunk_past_the_input_is_refused(rt: HostRuntime) -> Result<(), Fail> {
    let mut items = [1u8, 2, 3, 4, 5, 6];
    let mut called = false;
    let refused = Overlapping::new(&mut items, 2..)?.split_first_chunk(|b: &[u8; 5]| {
        called = true;
        *b
    });
    equal(
        &rt,
        refused.err(),
        Some(IndexError::new(5)),
        "the length of a chunk",
    );
    holds(&rt, !called, "no call");
    same(&rt, &items, &[1, 2, 3, 4, 5, 6], "the slice");
    Ok(())
}

#[test]
fn first_chunk_of_items_that_are_moved(rt: HostRuntime) -> Result<(), Fail> {
    let mut items = [Item(1), Item(2), Item(3)];
    let in_out = Overlapping::new(&mut items, 1..)?;
    let rest = in_out.split_first_chunk(|b: &[Item; 1]| [Item(b[0].0)])?;
    hold(&rt, rest.input(), &[3]);
    hold(&rt, &items, &[2, 2, 3]);
    Ok(())
}

#[test]
fn array_has_the_input_and_lends_the_front(rt: HostRuntime) -> Result<(), Fail> {
    let mut items = [Item(1), Item(2), Item(3)];
    let array = Array::<_, 2>::new(Overlapping::new(&mut items, 1..)?)?;
    hold(&rt, array.input(), &[2, 3]);
    let output = array.into_unwritten_output();
    hold(&rt, output, &[1, 2]);
    *output = [Item(8), Item(9)];
    hold(&rt, &items, &[8, 9, 3]);
    Ok(())
}

/// Asserts that `Array::new` fails for this input and `N` items.
fn is_no_array<const N: usize>(rt: &impl Abort, input: &mut [u8]) {
    let refused = Array::<_, N>::new(Overlapping::from(input)).err();
    equal(
        rt,
        refused,
        Some(LenMismatchError::new(N)),
        "the length of an array",
    );
}

#[test]
fn array_of_another_length_is_refused(rt: HostRuntime) {
    is_no_array::<4>(&rt, &mut [1, 2, 3]);
    is_no_array::<0>(&rt, &mut []);
    equal(
        &rt,
        LenMismatchError::new(4).value(),
        4,
        "the error's length",
    );
}

#[test]
fn partial_block_is_shorter_than_a_block(rt: HostRuntime) -> Result<(), Fail> {
    let mut items = [Item(1), Item(2), Item(3), Item(4)];
    let refused = PartialBlock::<_, 4>::new(Overlapping::from(items.as_mut_slice())).err();
    equal(&rt, refused, Some(InputTooLongError::new(4)), "the length");
    equal(
        &rt,
        InputTooLongError::new(4u32).value(),
        4,
        "the error's length",
    );
    let block = PartialBlock::<_, 4>::new(Overlapping::new(&mut items, 1..)?)?;
    equal(&rt, block.len(), 3, "the input's length");
    hold(&rt, block.input(), &[2, 3, 4]);
    Ok(())
}

#[test]
fn partial_block_overwrites_the_front(rt: HostRuntime) -> Result<(), Fail> {
    let mut items = [1u8, 2, 3, 4, 5];
    let block = PartialBlock::<_, 4>::new(Overlapping::new(&mut items, 2..)?)?;
    block.overwrite_at_start([9, 8, 7, 6]);
    same(&rt, &items, &[9, 8, 7, 4, 5], "the slice");
    Ok(())
}

#[test]
fn pairs_are_swapped_on_the_way_to_the_front(rt: HostRuntime) {
    let mut items = [1, 2, 3, 4, 5, 6, 7];
    let in_out = Overlapping::within(&mut items, 1);
    shift_full_blocks(in_out, |b: &[u8; 2]| [b[1], b[0]]);
    same(&rt, &items, &[3, 2, 5, 4, 7, 6, 7], "the slice");
}

#[test]
fn no_block_is_left_as_it_is(rt: HostRuntime) {
    let mut items = [1, 2, 3];
    shift_full_blocks(Overlapping::within(&mut items, 3), |b: &[u8; 16]| *b);
    same(&rt, &items, &[1, 2, 3], "the slice");
}
