//! Cutting and joining a list in place.

ghost use Rattle.std.specs.Prelude.{◌≡◌, ◌+◌, ◌≤◌, ◌++◌, length, take, drop, vec_len, vec_capacity};

use std::alloc::Allocator;
use vcs_inputs::Input;

/// Puts `new` before the place `at`. There is room for it.
pub fn insert_at<A: Allocator>(list: &mut Vec<Input, A>, at: usize, new: &[Input])
    requires place { at ≤ vec_len list.old }
    requires room { vec_len list.old + length new.now ≤ vec_capacity list.old }
    ensures items { list.new.items ≡ take at list.old.items ++ new.now ++ drop at list.old.items }
    ensures capacity { vec_capacity list.old ≤ vec_capacity list.new }
{
    list.extend_from_slice(new).unwrap();
    let tail = &mut list[at..];
    tail.rotate_right(new.len());
}

/// Writes `new` over as many items from the place `at` on.
pub fn replace_at(list: &mut [Input], at: usize, new: &[Input])
    requires { at + length new.now ≤ length list.old }
    ensures { list.new ≡ take at list.old ++ new.now ++ drop (at + length new.now) list.old }
{
    list[at..at + new.len()].copy_from_slice(new);
}

/// Takes out `count` items from the place `at` on.
pub fn delete_at<A: Allocator>(list: &mut Vec<Input, A>, at: usize, count: usize)
    requires { at + count ≤ vec_len list.old }
    ensures items { list.new.items ≡ take at list.old.items ++ drop (at + count) list.old.items }
    ensures capacity { vec_capacity list.new ≡ vec_capacity list.old }
{
    let len = list.len();
    let tail = &mut list[at..];
    tail.rotate_left(count);
    list.truncate(len - count);
}
