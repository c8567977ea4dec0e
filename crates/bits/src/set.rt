// A set of bits: its type, what it tells, and the sets that one more bit or an exchange gives.
ghost use Rattle.std.specs.Prelude.{Some, None, IfSome, ◌≡◌, ℕ, ◌+◌, ◌^◌, ◌<◌, ◌≤◌, true, not, ◌&&◌, ◌||◌, ◌==◌, [], length, take, if◌then◌else◌, nat_lt, slice_index, slice_index_or};
ghost use Rattle.std.specs.Iterator.{YieldsFirst, item_count};
ghost use Rattle.bits.specs.Sets.{member, with_bit, without_bit, exchanged};
ghost use Rattle.bits.specs.Chosen.{IsBits, joins};

use std::marker::Model;
use std::ops::Range;

// At most twelve rising bits, each below 1,024. A place that is not in use holds 1,024.
// Single numbers and no array beside a count: a rule of the project; its functions name each place.
// What a `Model` promises its callers don't see, so each call that makes a set says it (`IsBits`).
// No `==`: nothing compares sets.
#[derive(Clone, Copy, Debug)]
pub struct Bits {
    count: usize,
    b0: u16,
    b1: u16,
    b2: u16,
    b3: u16,
    b4: u16,
    b5: u16,
    b6: u16,
    b7: u16,
    b8: u16,
    b9: u16,
    b10: u16,
    b11: u16,
}

impl Model for Bits {
    ghost use Rattle.std.specs.Prelude.{ℕ, List};

    ghost Value = { List ℕ };

    ghost use Rattle.bits.specs.Places.{bits_in, IsSound, places_of};
    ghost use Rattle.bits.specs.PlacesLaw.{places_of-bits_in};

    ghost view = { bits_in };

    ghost invariant = { IsSound };

    ghost inverse = { places_of };

    ghost inverse_ok = { places_of-bits_in };
}

impl Bits {
    // No bit at all.
    pub fn none() -> Bits
        ensures set { result ≡ [] }
        ensures bits { IsBits result }
    {
        Bits {
            count: 0,
            b0: 1024,
            b1: 1024,
            b2: 1024,
            b3: 1024,
            b4: 1024,
            b5: 1024,
            b6: 1024,
            b7: 1024,
            b8: 1024,
            b9: 1024,
            b10: 1024,
            b11: 1024,
        }
    }

    // How many bits there are.
    pub fn len(&self) -> usize
        ensures answer { result ≡ length self.now }
        ensures few { result ≤ 12 }
        ensures bits { IsBits self.now }
    {
        self.count
    }

    // How many values the bits can have together.
    pub fn cells(&self) -> usize
        ensures answer { result ≡ 2 ^ length self.now }
        ensures few { result ≤ 4096 }
        ensures bits { IsBits self.now }
    {
        power(self.len())
    }

    // The bit at a place, in rising order; 0 past the last one and no `Option`: a rule of the project, that this call answers every place with a number.
    pub fn at(&self, place: usize) -> usize
        ensures { result ≡ slice_index self.now place }
    {
        if place < self.count {
            usize::from(self.held(place))
        } else {
            0
        }
    }

    // What a place holds, in use or free.
    #[tactic(auto, using(crate::proofs::Places::held_at_place))]
    fn held(&self, place: usize) -> u16
        requires { place < 12 }
        ensures { result ≡ slice_index_or self.now place 1024 }
    {
        match place {
            0 => self.b0,
            1 => self.b1,
            2 => self.b2,
            3 => self.b3,
            4 => self.b4,
            5 => self.b5,
            6 => self.b6,
            7 => self.b7,
            8 => self.b8,
            9 => self.b9,
            10 => self.b10,
            _ => self.b11,
        }
    }

    // All twelve places, the bits in rising order first. An array, which a loop over many lines reads faster than the set.
    pub fn places(&self) -> [u16; 12]
        ensures held { take (length self.now) result ≡ self.now }
        ensures bits { IsBits self.now }
    {
        [
            self.b0, self.b1, self.b2, self.b3, self.b4, self.b5, self.b6, self.b7, self.b8,
            self.b9, self.b10, self.b11,
        ]
    }

    // The bits in rising order.
    pub fn iter(&self) -> Iter
        ensures left { result ≡ self.now }
        ensures bits { IsBits result }
    {
        Iter {
            bits: *self,
            places: 0..self.count,
        }
    }

    // Whether a bit is in the set.
    pub fn has(&self, bit: usize) -> bool
        ensures { result ≡ member bit self.now }
    {
        self.iter().any(|own| own == bit)
    }

    // The set with one bit more, or none where it is full, has the bit, or the bit is 1,024 or above.
    #[tactic(auto, using(crate::proofs::Members::member_with, crate::proofs::Lengths::length_with))]
    pub fn with(&self, bit: usize) -> Option<Bits>
        ensures set { result ≡ (if nat_lt (length self.now) 12 && joins bit self.now then Some (with_bit bit self.now) else None) }
        ensures members { IfSome result (λ set. (b : ℕ) → member b set ≡ (b == bit || member b self.now)) }
        ensures len { IfSome result (λ set. length set ≡ length self.now + 1) }
        ensures bits { IfSome result IsBits }
    {
        if self.count < 12 && self.admits(bit) {
            Some(self.joined(bit as u16))
        } else {
            None
        }
    }

    // The set with one bit exchanged for another, or none where the one is not in it or the other may not join.
    #[tactic(auto, using(crate::proofs::Leaving::joins_without, crate::proofs::Members::member_with, crate::proofs::Lengths::length_exchanged))]
    pub fn exchanged(&self, out: usize, joining: usize) -> Option<Bits>
        ensures set { result ≡ (if member out self.now && joins joining self.now then Some (exchanged self.now out joining) else None) }
        ensures members { IfSome result (λ set. (b : ℕ) → member b set ≡ (b == joining || not (b == out) && member b self.now)) }
        ensures len { IfSome result (λ set. length set ≡ length self.now) }
        ensures bits { IfSome result IsBits }
    {
        if self.has(out) && self.admits(joining) {
            Some(self.parted(out).joined(joining as u16))
        } else {
            None
        }
    }

    // Whether a bit may join the set. One that may is below 1,024, so `as u16` in the callers loses nothing.
    fn admits(&self, bit: usize) -> bool
        ensures { result ≡ joins bit self.now }
    {
        bit < 1024 && !self.has(bit)
    }

    // The set with one bit more: each place keeps the lesser of two bits, p, and hands on the larger, c.
    fn joined(&self, bit: u16) -> Bits
        requires room { length self.now < 12 }
        requires new { joins bit self.now ≡ true }
        ensures set { result ≡ with_bit bit self.now }
        ensures bits { IsBits result }
    {
        let p0 = bit.min(self.b0);
        let c1 = bit.max(self.b0);
        let p1 = c1.min(self.b1);
        let c2 = c1.max(self.b1);
        let p2 = c2.min(self.b2);
        let c3 = c2.max(self.b2);
        let p3 = c3.min(self.b3);
        let c4 = c3.max(self.b3);
        let p4 = c4.min(self.b4);
        let c5 = c4.max(self.b4);
        let p5 = c5.min(self.b5);
        let c6 = c5.max(self.b5);
        let p6 = c6.min(self.b6);
        let c7 = c6.max(self.b6);
        let p7 = c7.min(self.b7);
        let c8 = c7.max(self.b7);
        let p8 = c8.min(self.b8);
        let c9 = c8.max(self.b8);
        let p9 = c9.min(self.b9);
        let c10 = c9.max(self.b9);
        let p10 = c10.min(self.b10);
        let c11 = c10.max(self.b10);
        let p11 = c11.min(self.b11);
        Bits {
            count: self.count + 1,
            b0: p0,
            b1: p1,
            b2: p2,
            b3: p3,
            b4: p4,
            b5: p5,
            b6: p6,
            b7: p7,
            b8: p8,
            b9: p9,
            b10: p10,
            b11: p11,
        }
    }

    // The set without one of its bits: from that bit on, each place takes what the next one holds.
    fn parted(&self, out: usize) -> Bits
        requires { member out self.now ≡ true }
        ensures set { result ≡ without_bit out self.now }
        ensures members { (b : ℕ) → member b result ≡ (not (b == out) && member b self.now) }
        ensures len { length result + 1 ≡ length self.now }
        ensures room { length result < 12 }
        ensures bits { IsBits result }
    {
        let p0 = kept(self.b0, self.b1, out);
        let p1 = kept(self.b1, self.b2, out);
        let p2 = kept(self.b2, self.b3, out);
        let p3 = kept(self.b3, self.b4, out);
        let p4 = kept(self.b4, self.b5, out);
        let p5 = kept(self.b5, self.b6, out);
        let p6 = kept(self.b6, self.b7, out);
        let p7 = kept(self.b7, self.b8, out);
        let p8 = kept(self.b8, self.b9, out);
        let p9 = kept(self.b9, self.b10, out);
        let p10 = kept(self.b10, self.b11, out);
        let p11 = kept(self.b11, 1024, out);
        Bits {
            count: self.count - 1,
            b0: p0,
            b1: p1,
            b2: p2,
            b3: p3,
            b4: p4,
            b5: p5,
            b6: p6,
            b7: p7,
            b8: p8,
            b9: p9,
            b10: p10,
            b11: p11,
        }
    }
}

impl IntoIterator for &Bits {
    type Item = usize;

    type IntoIter = Iter;

    ghost into_iter_gives = { λ bits left. (left ≡ bits.now) × IsBits left };

    fn into_iter(self) -> Iter {
        Bits::iter(self)
    }
}

// The bits of a set that are left, in rising order. No `==`: nothing compares them.
#[derive(Clone, Debug, Drop)]
pub struct Iter {
    bits: Bits,
    places: Range<usize>,
}

impl Model for Iter {
    ghost use Rattle.std.specs.Prelude.{◌≡◌, ℕ, List, length, drop};

    ghost Value = { List ℕ };

    ghost view = { λ it. drop it.places.start it.bits };

    ghost invariant = { λ it. it.places.end ≡ length it.bits };
}

impl Iterator for Iter {
    type Item = usize;

    ghost next_gives = { YieldsFirst (λ left. left) };

    ghost remaining = { item_count (λ left. left) };

    fn next(&mut self) -> Option<usize> {
        let place = self.places.next()?;
        Some(self.bits.at(place))
    }
}

// Two to the power of a few bits.
fn power(bits: usize) -> usize
    requires { bits ≤ 12 }
    ensures answer { result ≡ 2 ^ bits }
    ensures few { result ≤ 4096 }
{
    1usize << bits
}

// What a place keeps as `out` leaves the set: its own bit below `out`, and else the next one's.
fn kept(here: u16, next: u16, out: usize) -> u16
    ensures { result ≡ (if nat_lt here out then here else next) }
{
    if usize::from(here) < out { here } else { next }
}
