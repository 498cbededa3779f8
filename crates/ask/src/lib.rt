// Ask: the point sends a RREQ of its own for 1 to 20 destinations.
#![tactic(auto)]

ghost use Rattle.std.specs.Prelude.{◌≡◌, ◌+◌, ◌*◌, ◌/◌, ◌≤◌, length, Ok};
ghost use mathlib.Core.List.{flat_map, map};
ghost use Rattle.octets.specs.LittleEndian.{overwrite};
ghost use Rattle.layout.specs.Layout.{Sized};
ghost use Rattle.element.specs.Element.{rreq};
ghost use Rattle.element.specs.Entries.{items_in, target_octets};
ghost use Rattle.element.specs.Lists.{all_ones};
ghost use Rattle.element.specs.Octets.{write_frame};
ghost use Rattle.rules.specs.Lists.{any};
ghost use Rattle.rules.specs.Exit.{at_exit, lend, least_output};
ghost use Rattle.rules.specs.Exits.{ask_exit};
ghost use Rattle.rules.specs.Originate.{
  asked_for,
  asking,
  has_high_flags,
  item_checks,
  items_fit,
  own_request,
  requested,
  with_known,
  without_known,
};
ghost use Rattle.calls.specs.Answers.{answer_to, exit_of};

use calls::Emitted;
use counters::SequenceNumber;
use element::list::ListKind;
use element::{Item, Target, flags, list};
use layout::row;
use layout::row::Head;
use originate::common;
use refusals::Refusal;
use table::{legal, search};

// Reports whether the octets are 1 to 20 items of 7 octets each.
fn is_item_list(items: &[u8]) -> bool
    ensures { result ≡ items_fit items.now }
{
    (items.len() % 7 == 0) & (7 <= items.len()) & (items.len() <= 140)
}

// The loop is written as that of `list::has_forbidden`, which has the reason.
fn has_high_flags(items: &[u8]) -> bool
    ensures { result ≡ any has_high_flags (items_in items.now) }
{
    let n = items.len() / list::ITEM;
    for i in 0..n {
        if 3 < list::item_at(items, i).flags {
            return true;
        }
    }
    false
}

// Checks the items alone: refusals 8 to 10.
fn check_items(items: &[u8]) -> Result<(), Refusal>
    ensures { result ≡ answer_to (item_checks items.now) }
{
    if !is_item_list(items) {
        return Err(Refusal::BadCount);
    }
    if list::has_forbidden(items, ListKind::Items) {
        return Err(Refusal::BadAddress);
    }
    if list::has_duplicate(items, ListKind::Items) | has_high_flags(items) {
        return Err(Refusal::BadList);
    }
    Ok(())
}

fn check(table: &[u8], output: &[u8], lifetime: u32, items: &[u8]) -> Result<(), Refusal>
    ensures { result ≡ answer_to
        (asking (lend table.now) (length output.now) lifetime items.now).checks }
{
    if !legal::is_sized(table) {
        return Err(Refusal::TableLength);
    }
    if output.len() < calls::LEAST_OUTPUT {
        return Err(Refusal::ShortOutput);
    }
    check_items(items)?;
    if lifetime == 0 {
        return Err(Refusal::NoLifetime);
    }
    if !legal::is_table(table) {
        return Err(Refusal::NotATable);
    }
    if list::contains(items, ListKind::Items, row::read_head(table).own) {
        return Err(Refusal::AboutItself);
    }
    Ok(())
}

// Returns the destination for an item whose number is known.
fn with_known(item: Item, number: SequenceNumber) -> Target
    ensures { result ≡ with_known item number }
{
    Target {
        flags: item.flags,
        address: item.address,
        number,
    }
}

// Returns the destination for an item whose number is not known: 0, marked unknown.
fn without_known(item: Item) -> Target
    ensures { result ≡ without_known item }
{
    Target {
        flags: flags::with_unknown(item.flags),
        address: item.address,
        number: SequenceNumber(0),
    }
}

// Returns the destination for an item. Its number is the known number of the held row, active or not. If there is none, the
// number is marked unknown.
fn asked_for(table: &[u8], item: Item) -> Target
    ensures { result ≡ asked_for table.now item }
{
    let Some(i) = search::find_row(table, item.address) else {
        return without_known(item);
    };
    let r = row::read_row(table, i);
    if r.known != 1 {
        return without_known(item);
    }
    with_known(item, r.number)
}

// Writes a destination for each item, starting at place `at`. Returns the place after them.
fn write_targets(output: &mut [u8], at: usize, table: &[u8], items: &[u8]) -> usize
    requires in_bounds { at + 11 * (length items.now / 7) ≤ length output.old }
    ensures value { result ≡ at + 11 * (length items.now / 7) }
    ensures output_after { output.new
        ≡ overwrite output.old at
        (flat_map target_octets (map (asked_for table.now) (items_in items.now))) }
{
    let n = items.len() / list::ITEM;
    let mut place = at;
    for i in 0..n {
        place = writing::write_target(output, place, asked_for(table, list::item_at(items, i)));
    }
    place
}

// Writes the frame of an ask that the point with this head sends. Returns the place after the frame.
fn write_request(output: &mut [u8], head: Head, lifetime: u32, table: &[u8], items: &[u8]) -> usize
    requires least_output_in_bounds { least_output ≤ length output.old }
    requires in_bounds { 7 ≤ length items.now }
    requires len_bound { length items.now ≤ 140 }
    ensures value { result ≡ 34 + 11 * (length items.now / 7) }
    ensures output_after { output.new
        ≡ overwrite output.old 0
        (write_frame all_ones (rreq (own_request head 0 lifetime)
        (map (asked_for table.now) (items_in items.now)))) }
{
    let list = common::start_request(output, head, 0, lifetime, items.len() / list::ITEM);
    write_targets(output, list, table, items)
}

// Writes the table and the frame of an accepted ask.
fn send(
    table: &mut [u8],
    output: &mut [u8],
    lifetime: u32,
    items: &[u8],
) -> Result<Emitted, Refusal>
    requires sized { Sized table.old }
    requires least_output_in_bounds { least_output ≤ length output.old }
    requires in_bounds { 7 ≤ length items.now }
    requires len_bound { length items.now ≤ 140 }
    ensures { exit_of result (lend table.new) output.new
        ≡ at_exit (lend table.old) output.old
        (Ok (requested (lend table.old) 0 lifetime
        (map (asked_for table.old) (items_in items.now)))) }
{
    let head = common::number_head(row::read_head(table), true);
    let octets = write_request(output, head, lifetime, table, items);
    row::write_head(table, head);
    Ok(Emitted::one_frame(octets))
}

pub fn ask(
    table: &mut [u8],
    output: &mut [u8],
    lifetime: u32,
    items: &[u8],
) -> Result<Emitted, Refusal>
    ensures { exit_of result (lend table.new) output.new
        ≡ ask_exit (lend table.old) output.old lifetime items.now }
{
    check(table, output, lifetime, items)?;
    send(table, output, lifetime, items)
}
