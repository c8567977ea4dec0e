// Looking into an area of any content: a header's block, and the walk through it.
ghost use Rattle.std.specs.Prelude.{◌≡◌, List, length, None, Ok, Option, slice_index_or};
ghost use Rattle.bits.specs.Chosen.{IsBits};
ghost use Rattle.kinds.specs.Lines.{rules_of};
ghost use Rattle.blocks.specs.Cells.{cell_of};
ghost use Rattle.blocks.specs.Blocks.{block as block_of};
ghost use Rattle.layout.specs.Layout.{laid};
ghost use Rattle.layout.specs.LookUp.{block_in, Hands, Looks, walked, looked_up, FindsLowest};

use super::spoilt::Spoilt;
use bits::Bits;
use kinds::{Kind, Line};

// The block of a header as a part of the area itself: the entries that the starts give to its cell.
pub fn block<'a, K: Kind>(
    bits: &Bits,
    area: &'a [u32],
    header: &K::Header,
) -> Result<&'a [u32], Spoilt>
    ensures answer { Hands (block_in (length bits.now) area.now (cell_of K.meaning bits.now header.now)) result }
    ensures facts { (rules : List (Option _)) → area.now ≡ laid K.meaning rules bits.now (length area.now) → Hands (Ok (block_of K.meaning rules bits.now (cell_of K.meaning bits.now header.now))) result }
    ensures bits { IsBits bits.now }
{
    let base = bits.cells() + 1;
    if area.len() < base {
        return Err(Spoilt::Bounds);
    }
    let cell = blocks::cell_of::<K>(bits, header);
    // `as`, here and below: there is no `From<u32>` for `usize`.
    let from = area[cell] as usize;
    let to = area[cell + 1] as usize;
    if from > to || to > area.len() - base {
        return Err(Spoilt::Bounds);
    }
    Ok(&area[base + from..base + to])
}

// The rule of the line that an entry names, or none where it names no filled line.
fn rule_at<K: Kind>(lines: &[Line<K::Row>], entry: usize) -> Option<K::Rule>
    ensures { result ≡ slice_index_or (rules_of K.meaning lines.now) entry None }
{
    lines.get(entry).and_then(|line| kinds::rule_of::<K>(line))
}

// The first entry whose line matches, or none, and how many were tried.
fn walk<K: Kind>(
    lines: &[Line<K::Row>],
    entries: &[u32],
    header: &K::Header,
) -> Result<(Option<usize>, usize), Spoilt>
    ensures { result ≡ walked K.meaning (rules_of K.meaning lines.now) header.now 0 entries.now }
{
    for (before, entry) in entries.iter().enumerate() {
        let line = *entry as usize;
        let rule = rule_at::<K>(lines, line).ok_or(Spoilt::Entry)?;
        if K::matches(&rule, header) {
            return Ok((Some(line), before + 1));
        }
    }
    Ok((None, entries.len()))
}

// The line that answers a header, or none, and how many entries were tried: a pair, by a rule of the project.
// Lines and bits and no `Plan`: any number of lines may be looked through.
pub fn look_up<K: Kind>(
    lines: &[Line<K::Row>],
    bits: &Bits,
    area: &[u32],
    header: &K::Header,
) -> Result<(Option<usize>, usize), Spoilt>
    ensures answer { result ≡ looked_up K.meaning (rules_of K.meaning lines.now) bits.now header.now area.now }
    ensures walk { Looks K.meaning (rules_of K.meaning lines.now) header.now (block_in (length bits.now) area.now (cell_of K.meaning bits.now header.now)) result }
    ensures facts { area.now ≡ laid K.meaning (rules_of K.meaning lines.now) bits.now (length area.now) → FindsLowest K.meaning (rules_of K.meaning lines.now) bits.now header.now result }
{
    let entries = block::<K>(bits, area, header)?;
    walk::<K>(lines, entries, header)
}
