//! The data areas of a chain: direct or by a list of words (Principles of Operation, chapter 15, "Designation of
//! Storage Area", "Data Chaining" and "CCW Indirect Data Addressing").

ghost use Rattle.std.specs.Prelude.{◌≡◌, ◌≤◌, ◌<◌, ◌+◌, ◌*◌, ◌^◌, ◌-◌, min, List, length, [], ◌∷◌, MatchResult, MatchOption, OnOk, IfOk, IfErr, IfSome, IsSome, All, Some, None, true, false};
ghost use Rattle.io_area.specs.Storage.{lies_in};
ghost use Rattle.device_port.specs.Moves.{CanAct, segment_lies};
ghost use Rattle.ccw_programs.specs.Links.{Sound, is_indirect, skips};
ghost use Rattle.ccw_programs.specs.Areas.{areas, parts_of, parts_from, part_of, word_rule, is_usable, room_after, indirect_parts, direct_parts, word_at, Parts, Bad, AddsParts};

use crate::fetch::Link;
use crate::rule::{FailedCcw, Rule};
use crate::workspace::Parts;
use device_port::{Flow, Segment};
use io_area::Area;
use io_images::{AddressWord, Ccw};

/// The word of a list at an address.
fn word_at(area: &Area, at: u32) -> Option<u32>
    ensures answer { MatchOption result (lies_in area.now at 4 ≡ false) (λ w. (lies_in area.now at 4 ≡ true) × (w ≡ word_at area.now at)) }
    ensures bound { IsSome result → at + 4 ≤ 2 ^ 24 }
{
    match area.get(at, 4) {
        Some(image) => Some(AddressWord::read(&[image[0], image[1], image[2], image[3]]).get()),
        None => None,
    }
}

/// Whether the bytes of a part lie in storage, backward where they flow so.
fn segment_lies(flow: Flow, area: &Area, segment: &Segment) -> bool
    ensures { result ≡ segment_lies flow area.now segment.now }
{
    match flow {
        Flow::None => true,
        Flow::Out | Flow::Input => area.get(segment.address, segment.count as usize).is_some(),
        Flow::Back => {
            if segment.count == 0 {
                return true;
            }
            let below = u32::from(segment.count) - 1;
            below <= segment.address
                && area
                    .get(segment.address - below, segment.count as usize)
                    .is_some()
        }
    }
}

/// Adds the one part of a CCW that names its data.
fn push_direct(chain: &mut Parts, flow: Flow, area: &Area, ccw: &Ccw) -> Result<(), Rule>
    requires room { length chain.old.items ≤ 495 }
    requires direct { is_indirect ccw.now ≡ false }
    ensures room { length chain.new.items ≤ length chain.old.items + 33 }
    ensures parts { AddsParts chain.old.items (direct_parts flow area.now ccw.now) result chain.new.items }
{
    let segment = part_of(ccw);
    if !segment_lies(flow, area, &segment) {
        return Err(Rule::DataOutside);
    }
    chain.push(segment);
    Ok(())
}

/// Adds the parts of a CCW that names a list of words.
fn push_indirect(chain: &mut Parts, area: &Area, ccw: &Ccw) -> Result<(), Rule>
    requires room { length chain.old.items ≤ 495 }
    ensures room { length chain.new.items ≤ length chain.old.items + 33 }
    ensures parts { AddsParts chain.old.items (indirect_parts area.now ccw.now) result chain.new.items }
{
    let list = ccw.address.get();
    if list % 4 != 0 {
        return Err(Rule::ListMisaligned);
    }
    let Some(first) = word_at(area, list) else {
        return Err(Rule::WordOutside(list));
    };
    let count = ccw.count;
    let words = (first % 2048 + count as u32 + 2047) / 2048;
    push_words(chain, area, list, words, count, ccw.flags.skips())
}

/// Adds the parts that `words` words of a list give.
fn push_words(
    chain: &mut Parts,
    area: &Area,
    list: u32,
    words: u32,
    bytes: u16,
    skip: bool,
) -> Result<(), Rule>
    requires { length chain.old.items + words ≤ 528 }
    ensures room { length chain.new.items ≤ length chain.old.items + words }
    ensures parts { AddsParts chain.old.items (parts_from area.now skip true list words bytes) result chain.new.items }
{
    let mut at = list;
    let mut count = bytes;
    for place in 0..words {
        match usable_part(area, place == 0, at, count, skip) {
            Err(rule) => return Err(rule),
            Ok(part) => {
                chain.push(part);
                count -= part.count;
                at += 4;
            }
        }
    }
    Ok(())
}

/// The part that a word of a list gives, if the word may be used.
fn usable_part(
    area: &Area,
    is_first: bool,
    at: u32,
    count: u16,
    skip: bool,
) -> Result<Segment, Rule>
    ensures answer { MatchResult result (λ s. (is_usable area.now is_first at count ≡ true) × (s ≡ record { address = word_at area.now at; count = min count (room_after (word_at area.now at)); skip = skip })) (λ _. is_usable area.now is_first at count ≡ false) }
    ensures bound { IfOk result (λ s. (at + 4 ≤ 2 ^ 24) × (s.count ≤ count) × (count - s.count ≡ count - room_after (word_at area.now at))) }
    ensures rule { IfErr result (λ rule. rule ≡ word_rule area.now is_first at) }
{
    let Some(word) = word_at(area, at) else {
        return Err(Rule::WordOutside(at));
    };
    if word >= 0x8000_0000 {
        return Err(Rule::WordReserved(at));
    }
    if !is_first && word % 2048 != 0 {
        return Err(Rule::WordMisaligned(at));
    }
    let size = u32::from(count).min(2048 - word % 2048);
    if area.get(word, size as usize).is_none() {
        return Err(Rule::WordDataOutside(at));
    }
    Ok(Segment {
        address: word,
        count: size as u16,
        skip,
    })
}

/// Adds the parts of a CCW, or returns the rule that they break.
fn push_parts(chain: &mut Parts, flow: Flow, area: &Area, ccw: &Ccw) -> Result<(), Rule>
    requires { length chain.old.items ≤ 495 }
    ensures room { length chain.new.items ≤ length chain.old.items + 33 }
    ensures parts { AddsParts chain.old.items (parts_of flow area.now ccw.now) result chain.new.items }
{
    match flow {
        Flow::None => Ok(()),
        Flow::Back if ccw.flags.is_indirect() => Err(Rule::ListBackward),
        _ if ccw.flags.is_indirect() => push_indirect(chain, area, ccw),
        _ => push_direct(chain, flow, area, ccw),
    }
}

/// The part of a CCW whose address is not that of a list of words.
#[inline(always)]
pub(crate) fn part_of(ccw: &Ccw) -> Segment
    ensures { result ≡ part_of ccw.now }
{
    Segment {
        address: ccw.address.get(),
        count: ccw.count,
        skip: ccw.flags.skips(),
    }
}

/// The parts of a chain of this one CCW, whose part is given; None where it fails.
#[inline(always)]
pub(crate) fn data_area<'a>(
    flow: Flow,
    area: &Area,
    link: &Link,
    part: &'a [Segment; 1],
) -> Option<&'a [Segment]>
    requires direct { is_indirect link.now.ccw ≡ false }
    requires part { part.now ≡ part_of link.now.ccw ∷ [] }
    ensures value { MatchOption result (areas flow area.now (link.now ∷ []) ≡ Bad (record { at = link.now.at; rule = Rule.DataOutside })) (λ parts. areas flow area.now (link.now ∷ []) ≡ Parts parts.now) }
    ensures few { IfSome result (λ parts. length parts.now ≤ 1) }
{
    match flow {
        Flow::None => Some(&[]),
        Flow::Out | Flow::Input | Flow::Back => {
            if segment_lies(flow, area, &part[0]) {
                Some(part)
            } else {
                None
            }
        }
    }
}

/// Puts the parts of a whole chain together, or returns the first CCW that failed.
pub(crate) fn data_areas(
    flow: Flow,
    area: &Area,
    links: &[Link],
    chain: &mut Parts,
) -> Result<(), FailedCcw>
    requires few { length links.now ≤ 16 }
    requires some { 1 ≤ length links.now }
    requires sound { All Sound links.now }
    requires empty { chain.old.items ≡ [] }
    ensures value { MatchResult result (λ _. areas flow area.now links.now ≡ Parts chain.new.items) (λ refusal. areas flow area.now links.now ≡ Bad refusal) }
    ensures can { OnOk result (CanAct flow area.now chain.new.items) }
{
    for link in links {
        push_parts(chain, flow, area, &link.ccw).map_err(|rule| FailedCcw { at: link.at, rule })?;
    }
    Ok(())
}
