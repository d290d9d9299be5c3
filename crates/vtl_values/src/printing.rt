// A value as text.
ghost use Rattle.std.specs.Prelude.{◌≡◌, ◌++◌, ◌<◌, ◌≤◌, ◌^◌, ℕ, suc, List, [], ◌∷◌, codes, map, pos, ◌+ℤ◌, ◌-ℤ◌, ◌≤ℤ◌, ◌<ℤ◌, length, OnErr};
ghost use Rattle.std.specs.Fmt.{signed_decimal};
ghost use Rattle.std.specs.Rc.{rc_str_bytes};
ghost use Rattle.std.specs.String.{string_bytes as bytes_in};
ghost use Rattle.vtl_values.specs.Val.{vals_of};
ghost use Rattle.vtl_values.specs.Vals.{rows_of};
ghost use Rattle.vtl_values.specs.Ranges.{span, counted, toward, distance, numbered};
ghost use Rattle.vtl_values.specs.Printed.{truth, joined, more, printed, all_printed, entries_printed};
ghost use Rattle.vtl_values.specs.Within.{HoldsFront, Writes};

use crate::lack::Lack;
use crate::value::{Shape, Value};
use itoa::Buffer;
use std::rc::RcStr;

/// Writes the printed form of a value behind a text that may have at most `most` bytes in all.
///
/// # Errors
///
/// [`Lack::Room`] where it doesn't fit, and [`Lack::Memory`] where there is no memory. Behind the old text then stands
/// some front of the printed form.
#[cycle(print)]
pub fn print(value: &Value, text: &mut String, most: u64) -> Result<(), Lack>
    ensures writes { Writes most (bytes_in text.old) (bytes_in text.new) (printed value.now) result }
    ensures front { OnErr result (HoldsFront (bytes_in text.old) (bytes_in text.new) (printed value.now)) }
{
    match &value.shape {
        Shape::Null => write(text, "null", most),
        Shape::Bool(b) => write(text, truth_text(*b), most),
        Shape::Whole(n) => write_whole(text, *n, most),
        Shape::Number(t) => write(text, t.as_str(), most),
        Shape::Str(s) => write(text, s.as_str(), most),
        Shape::List(items) => print_list(&items.values, text, most),
        Shape::Range(first, last) => print_range(*first, *last, text, most),
        Shape::Map(entries) => print_map(&entries.rows, text, most),
    }
}

fn write(text: &mut String, more: &str, most: u64) -> Result<(), Lack>
    ensures writes { Writes most (bytes_in text.old) (bytes_in text.new) more.now result }
    ensures front { OnErr result (HoldsFront (bytes_in text.old) (bytes_in text.new) more.now) }
{
    let taken = text.len() as u64;
    if most < taken || most - taken < more.len() as u64 {
        return Err(Lack::Room);
    }
    text.push_str(more)?;
    Ok(())
}

fn truth_text(b: bool) -> &'static str
    ensures { result.now ≡ truth b }
{
    if b { "true" } else { "false" }
}

fn write_whole(text: &mut String, n: i64, most: u64) -> Result<(), Lack>
    ensures writes { Writes most (bytes_in text.old) (bytes_in text.new) (signed_decimal n) result }
    ensures front { OnErr result (HoldsFront (bytes_in text.old) (bytes_in text.new) (signed_decimal n)) }
{
    let mut buffer = Buffer::new();
    write(text, buffer.format(n), most)
}

#[cycle(print)]
fn print_list(items: &[Value], text: &mut String, most: u64) -> Result<(), Lack>
    ensures writes { Writes most (bytes_in text.old) (bytes_in text.new) (codes "[" ++ joined (all_printed (vals_of items.now)) ++ codes "]") result }
    ensures front { OnErr result (HoldsFront (bytes_in text.old) (bytes_in text.new) (codes "[" ++ joined (all_printed (vals_of items.now)) ++ codes "]")) }
{
    write(text, "[", most)?;
    print_items(items, text, most)?;
    write(text, "]", most)
}

#[cycle(print)]
fn print_items(items: &[Value], text: &mut String, most: u64) -> Result<(), Lack>
    requires { length (bytes_in text.old) ≤ most }
    ensures writes { Writes most (bytes_in text.old) (bytes_in text.new) (joined (all_printed (vals_of items.now))) result }
    ensures front { OnErr result (HoldsFront (bytes_in text.old) (bytes_in text.new) (joined (all_printed (vals_of items.now)))) }
{
    match items {
        [] => Ok(()),
        [first, rest @ ..] => {
            print(first, text, most)?;
            print_more(rest, text, most)
        }
    }
}

#[cycle(print)]
fn print_more(items: &[Value], text: &mut String, most: u64) -> Result<(), Lack>
    requires { length (bytes_in text.old) ≤ most }
    ensures writes { Writes most (bytes_in text.old) (bytes_in text.new) (more (all_printed (vals_of items.now))) result }
    ensures front { OnErr result (HoldsFront (bytes_in text.old) (bytes_in text.new) (more (all_printed (vals_of items.now)))) }
{
    for item in items {
        match print_next(item, text, most) {
            Ok(()) => {}
            Err(lack) => return Err(lack),
        }
    }
    Ok(())
}

#[cycle(print)]
fn print_next(item: &Value, text: &mut String, most: u64) -> Result<(), Lack>
    ensures writes { Writes most (bytes_in text.old) (bytes_in text.new) (codes ", " ++ printed item.now) result }
    ensures front { OnErr result (HoldsFront (bytes_in text.old) (bytes_in text.new) (codes ", " ++ printed item.now)) }
{
    write(text, ", ", most)?;
    print(item, text, most)
}

#[cycle(print)]
fn print_map(entries: &[(RcStr, Value)], text: &mut String, most: u64) -> Result<(), Lack>
    ensures writes { Writes most (bytes_in text.old) (bytes_in text.new) (codes "{" ++ joined (entries_printed (rows_of entries.now)) ++ codes "}") result }
    ensures front { OnErr result (HoldsFront (bytes_in text.old) (bytes_in text.new) (codes "{" ++ joined (entries_printed (rows_of entries.now)) ++ codes "}")) }
{
    write(text, "{", most)?;
    print_entries(entries, text, most)?;
    write(text, "}", most)
}

#[cycle(print)]
fn print_entries(entries: &[(RcStr, Value)], text: &mut String, most: u64) -> Result<(), Lack>
    requires { length (bytes_in text.old) ≤ most }
    ensures writes { Writes most (bytes_in text.old) (bytes_in text.new) (joined (entries_printed (rows_of entries.now))) result }
    ensures front { OnErr result (HoldsFront (bytes_in text.old) (bytes_in text.new) (joined (entries_printed (rows_of entries.now)))) }
{
    match entries {
        [] => Ok(()),
        [first, rest @ ..] => {
            print_entry(first, text, most)?;
            print_more_entries(rest, text, most)
        }
    }
}

#[cycle(print)]
fn print_more_entries(entries: &[(RcStr, Value)], text: &mut String, most: u64) -> Result<(), Lack>
    requires { length (bytes_in text.old) ≤ most }
    ensures writes { Writes most (bytes_in text.old) (bytes_in text.new) (more (entries_printed (rows_of entries.now))) result }
    ensures front { OnErr result (HoldsFront (bytes_in text.old) (bytes_in text.new) (more (entries_printed (rows_of entries.now)))) }
{
    for entry in entries {
        match print_next_entry(entry, text, most) {
            Ok(()) => {}
            Err(lack) => return Err(lack),
        }
    }
    Ok(())
}

#[cycle(print)]
fn print_next_entry(entry: &(RcStr, Value), text: &mut String, most: u64) -> Result<(), Lack>
    ensures writes { Writes most (bytes_in text.old) (bytes_in text.new) (codes ", " ++ (rc_str_bytes entry.now.0 ++ codes "=" ++ printed entry.now.1)) result }
    ensures front { OnErr result (HoldsFront (bytes_in text.old) (bytes_in text.new) (codes ", " ++ (rc_str_bytes entry.now.0 ++ codes "=" ++ printed entry.now.1))) }
{
    write(text, ", ", most)?;
    print_entry(entry, text, most)
}

#[cycle(print)]
fn print_entry(entry: &(RcStr, Value), text: &mut String, most: u64) -> Result<(), Lack>
    ensures writes { Writes most (bytes_in text.old) (bytes_in text.new) (rc_str_bytes entry.now.0 ++ codes "=" ++ printed entry.now.1) result }
    ensures front { OnErr result (HoldsFront (bytes_in text.old) (bytes_in text.new) (rc_str_bytes entry.now.0 ++ codes "=" ++ printed entry.now.1)) }
{
    write(text, entry.0.as_str(), most)?;
    write(text, "=", most)?;
    print(&entry.1, text, most)
}

// Each number takes a byte at least, so a range of more numbers than bytes is refused at once.
#[tactic(auto, unfolding(crate::specs::Ranges::span))]
fn print_range(first: i64, last: i64, text: &mut String, most: u64) -> Result<(), Lack>
    ensures writes { Writes most (bytes_in text.old) (bytes_in text.new) (codes "[" ++ joined (map signed_decimal (span first last)) ++ codes "]") result }
    ensures front { OnErr result (HoldsFront (bytes_in text.old) (bytes_in text.new) (codes "[" ++ joined (map signed_decimal (span first last)) ++ codes "]")) }
{
    if most < first.abs_diff(last) {
        return Err(Lack::Room);
    }
    write(text, "[", most)?;
    write_whole(text, first, most)?;
    write_counted(first, last, text, most)?;
    write(text, "]", most)
}

// The numbers behind the first.
fn write_counted(first: i64, last: i64, text: &mut String, most: u64) -> Result<(), Lack>
    requires { length (bytes_in text.old) ≤ most }
    ensures writes { Writes most (bytes_in text.old) (bytes_in text.new) (more (map signed_decimal (counted (toward first last) (first +ℤ toward first last) (distance first last)))) result }
    ensures front { OnErr result (HoldsFront (bytes_in text.old) (bytes_in text.new) (more (map signed_decimal (counted (toward first last) (first +ℤ toward first last) (distance first last))))) }
{
    for i in 0..first.abs_diff(last) {
        match write_next(text, number_at(first, last, i + 1), most) {
            Ok(()) => {}
            Err(lack) => return Err(lack),
        }
    }
    Ok(())
}

fn write_next(text: &mut String, n: i64, most: u64) -> Result<(), Lack>
    ensures writes { Writes most (bytes_in text.old) (bytes_in text.new) (codes ", " ++ signed_decimal n) result }
    ensures front { OnErr result (HoldsFront (bytes_in text.old) (bytes_in text.new) (codes ", " ++ signed_decimal n)) }
{
    write(text, ", ", most)?;
    write_whole(text, n, most)
}

/// The number of a range at this place, counted from 0.
pub fn number_at(first: i64, last: i64, n: u64) -> i64
    requires { n ≤ distance first last }
    ensures { result ≡ numbered first last n }
{
    if last < first {
        below(first, last, n)
    } else {
        above(first, last, n)
    }
}

fn below(first: i64, last: i64, n: u64) -> i64
    requires order { last <ℤ first }
    requires near { n ≤ distance first last }
    ensures { result ≡ first -ℤ pos n }
{
    (first as i128 - n as i128) as i64
}

fn above(first: i64, last: i64, n: u64) -> i64
    requires order { first ≤ℤ last }
    requires near { n ≤ distance first last }
    ensures { result ≡ first +ℤ pos n }
{
    (first as i128 + n as i128) as i64
}
