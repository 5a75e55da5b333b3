//! The problem, and what it is made of by place.
ghost use Rattle.std.specs.Prelude.{◌≡◌, ◌*◌, ◌%◌, ◌<◌, ◌≤◌, ◌^◌, ◌==◌, IsTrue, Some, []};
ghost use Rattle.std.specs.Prelude.{length, slice_index, slice_index_or, slice_get};
ghost use Rattle.std.specs.Int.{bit_at};
ghost use Rattle.std.specs.List.{All};
ghost use Rattle.mz_model.specs.Amounts.{holders_of};
ghost use Rattle.mz_model.specs.Boundary.{IsLength, as_neighbour, edge_term_of, neighbours_of};
ghost use Rattle.mz_model.specs.Parts.{unit_count, zone_count, feature_count, target_count};
ghost use Rattle.mz_model.specs.Parts.{cost_at, fraction_at, outer_at, rate_at, target_at};
ghost use Rattle.mz_model.specs.Targets.{gain_from, gain_of, held_after, touched_rows, touches_of};
ghost use Rattle.mz_model.specs.Scores.{penalty_term_of};
ghost use Rattle.mz_num.specs.Places.{places_below};
ghost use Rattle.mz_num.specs.ZoneSet.{IsZoneSet};
ghost use Rattle.mz_num.specs.Limits.{greatest_quantity, most_boundary_rows, most_features, most_target_rows, most_units, most_zones};
ghost use Rattle.mz_model.specs.Valid.{IsPair, IsValid};
ghost use Rattle.mz_model.specs.Zones.{allowed_zones, is_allowed, free_units, counts_of, step_of};

use crate::groups::Groups;
use crate::neighbour::Neighbour;
use crate::parts::{Parts, Target};
use crate::product::{by_millionths, narrow_part, wide_part};
use crate::touch::Touch;
use std::marker::Model;

/// A problem: units that each get one zone, what that costs, and what is asked of a plan.
#[derive(Debug, Drop)]
pub struct Problem {
    pub(crate) parts: Parts,
    /// The allowed zones of each unit.
    pub(crate) zones: Groups<u8>,
    pub(crate) free: Vec<u32>,
    pub(crate) counts: Vec<u8>,
    /// The neighbours of each unit, with the lengths between.
    pub(crate) neighbours: Groups<Neighbour>,
    /// The units that hold each feature, with their amounts.
    pub(crate) holders: Groups<(u32, u64)>,
    /// The target rows for which each unit gains in some zone, with its amount of their feature.
    pub(crate) touches: Groups<Touch>,
    /// The part of a feature's amounts that counts in a zone, in millionths, at `feature * zones + zone`:
    /// what one move asks of it lies side by side.
    pub(crate) shares: Vec<u64>,
    /// Whether the products of every penalty fit 64 bits.
    pub(crate) narrow: bool,
}

impl Model for Problem {
    ghost use Rattle.mz_model.specs.declared.parts.Parts.{Parts};

    ghost Value = { Parts };

    ghost use Rattle.mz_model.specs.Built.{AreListsOf};

    ghost view = { λ a. a.parts };

    ghost invariant = { λ a.
        AreListsOf a.parts a.zones a.free.items a.counts.items a.neighbours a.holders a.touches
        a.shares.items a.narrow };
}

impl Problem {
    /// The number of units, at most 100,000.
    #[inline]
    pub fn units(&self) -> u32
        ensures count { result ≡ unit_count self.now }
        ensures small { result ≤ most_units }
        ensures valid { IsValid self.now }
    {
        self.parts.unit_ids.len() as u32
    }

    /// The number of zones, 1 to 60.
    #[inline]
    pub fn zones(&self) -> u8
        ensures count { result ≡ zone_count self.now }
        ensures some_zone { 0 < result }
        ensures small { result ≤ most_zones }
        ensures valid { IsValid self.now }
    {
        self.parts.zone_ids.len() as u8
    }

    /// The number of features, at most 10,000.
    #[inline]
    pub fn features(&self) -> u32
        ensures count { result ≡ feature_count self.now }
        ensures small { result ≤ most_features }
    {
        self.parts.feature_ids.len() as u32
    }

    /// The number of target rows, at most 100,000.
    #[inline]
    pub fn targets(&self) -> u32
        ensures count { result ≡ target_count self.now }
        ensures small { result ≤ most_target_rows }
    {
        self.parts.targets.len() as u32
    }

    pub fn unit_id(&self, unit: u32) -> u32
        requires { unit < unit_count self.now }
        ensures { result ≡ slice_index self.now.unit_ids unit }
    {
        self.parts.unit_ids.as_slice()[unit as usize]
    }

    pub fn zone_id(&self, zone: u8) -> u32
        requires { zone < zone_count self.now }
        ensures { result ≡ slice_index self.now.zone_ids zone }
    {
        self.parts.zone_ids.as_slice()[zone as usize]
    }

    pub fn feature_id(&self, feature: u32) -> u32
        requires { feature < feature_count self.now }
        ensures { result ≡ slice_index self.now.feature_ids feature }
    {
        self.parts.feature_ids.as_slice()[feature as usize]
    }

    /// The name of a feature.
    pub fn name(&self, feature: u32) -> &[u8]
        requires { feature < feature_count self.now }
        ensures { result.now ≡ slice_index_or self.now.names feature [] }
    {
        self.parts.names.as_slice()[feature as usize].as_slice()
    }

    /// The allowed zones of a unit, as a set of bits by place.
    #[inline]
    pub fn allowed(&self, unit: u32) -> u64
        requires { unit < unit_count self.now }
        ensures set { result ≡ slice_index self.now.allowed unit }
        ensures of_zones { IsZoneSet (zone_count self.now) result }
    {
        self.parts.allowed.as_slice()[unit as usize]
    }

    /// Whether a unit may have a zone, given as any number.
    #[inline]
    pub fn is_allowed(&self, unit: u32, zone: u8) -> bool
        requires { unit < unit_count self.now }
        ensures test { result ≡ is_allowed self.now unit zone }
        ensures in_range { IsTrue result → zone < zone_count self.now }
    {
        let set = self.allowed(unit);
        zone < 64 && (set >> zone) & 1 == 1
    }

    /// The allowed zones of a unit, in rising order.
    #[inline]
    pub fn allowed_zones(&self, unit: u32) -> &[u8]
        requires { unit < unit_count self.now }
        ensures zones { result.now ≡ allowed_zones self.now unit }
        ensures in_range { All (λ zone. zone < zone_count self.now) result.now }
    {
        self.zones.at(unit as usize)
    }

    /// The places of the free units, those with two allowed zones or more, in order.
    #[inline]
    pub fn free(&self) -> &[u32]
        ensures units { result.now ≡ free_units self.now }
        ensures in_range { All (λ unit. unit < unit_count self.now) result.now }
        ensures paired { length (counts_of self.now) ≡ length result.now }
    {
        self.free.as_slice()
    }

    /// The number of allowed zones of each free unit, from 2 to 60.
    #[inline]
    pub fn counts(&self) -> &[u8]
        ensures counts { result.now ≡ counts_of self.now }
        ensures in_range { All (λ count. (2 ≤ count) × (count ≤ most_zones)) result.now }
        ensures paired { length result.now ≡ length (free_units self.now) }
    {
        self.counts.as_slice()
    }

    /// The place of the available zone.
    #[inline]
    pub fn available(&self) -> u8
        ensures zone { result ≡ self.now.available }
        ensures in_range { result < zone_count self.now }
    {
        self.parts.available
    }

    /// The cost term of a unit in a zone, in ten-thousandths, at most 10^18.
    #[inline]
    pub fn cost_of(&self, unit: u32, zone: u8) -> u64
        requires unit { unit < unit_count self.now }
        requires zone { zone < zone_count self.now }
        ensures term { result ≡ cost_at self.now unit zone }
        ensures small { result ≤ greatest_quantity }
    {
        self.parts.costs.as_slice()[unit as usize * self.parts.zone_ids.len() + zone as usize]
    }

    /// The number of neighbours of a unit.
    #[inline]
    pub fn degree(&self, unit: u32) -> u32
        requires { unit < unit_count self.now }
        ensures count { result ≡ length (neighbours_of self.now unit) }
        ensures small { result ≤ 2 * most_boundary_rows }
        ensures valid { IsValid self.now }
    {
        self.neighbours(unit).len() as u32
    }

    /// The neighbours of a unit, each with the length between the two in ten-thousandths.
    #[inline]
    pub fn neighbours(&self, unit: u32) -> &[Neighbour]
        requires { unit < unit_count self.now }

        // The neighbours, in order.
        ensures neighbours { result.now ≡ neighbours_of self.now unit }

        // What holds of each, and how many there are.
        ensures units { All (λ neighbour. neighbour.unit < unit_count self.now) result.now }
        ensures lengths { All (λ neighbour. IsLength self.now neighbour.length) result.now }
        ensures small { length result.now ≤ 2 * most_boundary_rows }
        ensures valid { IsValid self.now }
    {
        self.neighbours.at(unit as usize)
    }

    /// One neighbour of a unit, with the length between the two.
    #[inline]
    pub fn neighbour(&self, unit: u32, i: u32) -> (u32, u64)
        requires unit { unit < unit_count self.now }
        requires place { i < length (neighbours_of self.now unit) }
        ensures pair { slice_get (neighbours_of self.now unit) i ≡ Some (as_neighbour result.0 result.1) }
        ensures in_range { result.0 < unit_count self.now }
        ensures length { IsLength self.now result.1 }
    {
        let neighbour = self.neighbours(unit)[i as usize];
        (neighbour.unit, neighbour.length)
    }

    /// The length of a unit's boundary that no unit of the problem shares.
    #[inline]
    pub fn outer(&self, unit: u32) -> u64
        requires { unit < unit_count self.now }
        ensures length { result ≡ outer_at self.now unit }
        ensures allowed { IsLength self.now result }
    {
        self.parts.outer.as_slice()[unit as usize]
    }

    /// The boundary term of a length between two zones, in ten-thousandths, at most 10^18: the length
    /// times the rate of the two zones (Watts et al. 2009), rounded half up (this project's profile).
    #[inline]
    pub fn edge_term(&self, len: u64, k: u8, l: u8) -> u64
        requires length { IsLength self.now len }
        requires first { k < zone_count self.now }
        requires second { l < zone_count self.now }
        ensures term { result ≡ edge_term_of self.now len k l }
        ensures small { result ≤ greatest_quantity }
    {
        by_millionths(len, self.rate(k, l))
    }

    /// The rate of a boundary between two zones, in millionths.
    #[inline]
    pub fn rate(&self, k: u8, l: u8) -> u64
        requires first { k < zone_count self.now }
        requires second { l < zone_count self.now }
        ensures rate { result ≡ rate_at self.now k l }
        ensures valid { IsValid self.now }
    {
        self.parts.rates.as_slice()[k as usize * self.parts.zone_ids.len() + l as usize]
    }

    /// A target row; its level and its weight are at most 10^18.
    #[inline]
    pub fn target(&self, t: u32) -> Target
        requires { t < target_count self.now }
        ensures row { result ≡ target_at self.now t }
        ensures feature { result.feature < feature_count self.now }
        ensures level { result.level ≤ greatest_quantity }
        ensures weight { result.weight ≤ greatest_quantity }
    {
        self.parts.targets.as_slice()[t as usize]
    }

    /// What a unit gains for a target row in a zone, in ten-thousandths, at most 10^18: the amount times
    /// the zone's contribution (Watts et al. 2009), rounded half up (this project's profile).
    pub fn gain(&self, t: u32, unit: u32, zone: u8) -> u64
        requires row { t < target_count self.now }
        requires unit { unit < unit_count self.now }
        requires zone { zone < zone_count self.now }
        ensures gain { result ≡ gain_of self.now t unit zone }
        ensures small { result ≤ greatest_quantity }
    {
        match self
            .touches(unit)
            .binary_search_by_key(&t, |touch| touch.row)
        {
            Ok(i) => self.touched_gain(unit, i as u32, zone),
            Err(_) => 0,
        }
    }

    /// The number of target rows for which a unit gains in some zone.
    #[inline]
    pub fn touched(&self, unit: u32) -> u32
        requires { unit < unit_count self.now }
        ensures count { result ≡ length (touched_rows self.now unit) }
        ensures small { result ≤ target_count self.now }
        ensures valid { IsValid self.now }
    {
        self.touches(unit).len() as u32
    }

    /// One of the target rows for which a unit gains in some zone; these rise.
    #[inline]
    pub fn touched_row(&self, unit: u32, i: u32) -> u32
        requires unit { unit < unit_count self.now }
        requires place { i < length (touched_rows self.now unit) }
        ensures row { result ≡ slice_index (touched_rows self.now unit) i }
        ensures in_range { result < target_count self.now }
    {
        self.touches(unit)[i as usize].row
    }

    /// The target rows for which a unit gains in some zone, each with the unit's amount of its feature.
    #[inline]
    pub fn touches(&self, unit: u32) -> &[Touch]
        requires { unit < unit_count self.now }

        // The touched rows, in order.
        ensures touches { result.now ≡ touches_of self.now unit }

        // What holds of each, and how many there are.
        ensures rows { All (λ touch. touch.row < target_count self.now) result.now }
        ensures paired { length (touched_rows self.now unit) ≡ length result.now }
        ensures small { length result.now ≤ target_count self.now }
        ensures valid { IsValid self.now }
    {
        self.touches.at(unit as usize)
    }

    /// What a unit gains in a zone for one of the target rows that it touches: no search.
    #[inline]
    pub fn touched_gain(&self, unit: u32, i: u32, zone: u8) -> u64
        requires unit { unit < unit_count self.now }
        requires place { i < length (touched_rows self.now unit) }
        requires zone { zone < zone_count self.now }
        ensures gain { result ≡ gain_of self.now (slice_index (touched_rows self.now unit) i) unit zone }
        ensures small { result ≤ greatest_quantity }
    {
        let touch = self.touches(unit)[i as usize];
        self.gain_from(touch.row, touch.amount, zone)
    }

    /// The part of a feature's amounts that counts in a zone, in millionths.
    #[inline]
    fn fraction(&self, zone: u8, feature: u32) -> u64
        requires zone { zone < zone_count self.now }
        requires feature { feature < feature_count self.now }
        ensures { result ≡ fraction_at self.now zone feature }
    {
        self.shares[feature as usize * self.parts.zone_ids.len() + zone as usize]
    }

    /// The penalty of a target row for which so much is held, in ten-thousandths, at most 10^18: the
    /// missing share of its weight (Watts et al. 2009), rounded half up (this project's profile).
    #[inline]
    pub fn penalty_term(&self, t: u32, held: u64) -> u64
        requires { t < target_count self.now }
        ensures term { result ≡ penalty_term_of self.now t held }
        ensures small { result ≤ greatest_quantity }
    {
        let target = self.target(t);
        let missing = target.level.saturating_sub(held);
        if missing == 0 {
            return 0;
        }
        if self.narrow {
            narrow_part(target.weight, missing, target.level)
        } else {
            wide_part(target.weight, missing, target.level)
        }
    }

    /// The zone that stands `shift` places on from a unit's zone in its allowed zones, going round.
    #[inline]
    pub fn step(&self, unit: u32, zone: u8, shift: u8) -> u8
        requires unit { unit < unit_count self.now }
        requires zone { IsTrue (is_allowed self.now unit zone) }
        ensures zone { result ≡ step_of self.now unit zone shift }
        ensures allowed { IsTrue (is_allowed self.now unit result) }
        ensures in_range { result < zone_count self.now }
    {
        let zones = self.zones.at(unit as usize);
        let set = self.allowed(unit);
        let place = place_of(set, zone);
        zones[turned(place + shift as usize, zones.len())]
    }

    /// The pairs of neighbours, each once.
    pub(crate) fn edges(&self) -> &[(u32, u32, u64)]
        ensures edges { result.now ≡ self.now.edges }
        ensures pairs { All (IsPair (unit_count self.now)) result.now }
        ensures lengths { All (λ edge. IsLength self.now edge.2) result.now }
        ensures few { length result.now ≤ most_boundary_rows }
        ensures valid { IsValid self.now }
    {
        self.parts.edges.as_slice()
    }

    /// The units that hold a feature, with their amounts.
    #[inline]
    pub(crate) fn holders(&self, feature: u32) -> &[(u32, u64)]
        requires { feature < feature_count self.now }
        ensures holders { result.now ≡ holders_of self.now.amounts feature }
        ensures in_range { All (λ holder. holder.0 < unit_count self.now) result.now }
        ensures valid { IsValid self.now }
    {
        self.holders.at(feature as usize)
    }

    /// What an amount of a row's feature counts for the row in a zone. The amount is that of a unit
    /// that touches the row.
    #[inline]
    pub fn gain_from(&self, t: u32, amount: u64, zone: u8) -> u64
        requires row { t < target_count self.now }
        requires zone { zone < zone_count self.now }
        requires fits { gain_from self.now t amount zone ≤ greatest_quantity }
        ensures { result ≡ gain_from self.now t amount zone }
    {
        let target = self.target(t);
        match target.zone {
            Some(own) => if zone == own { amount } else { 0 },
            None => by_millionths(amount, self.fraction(zone, target.feature)),
        }
    }

    /// What is held for a target row of which so much was held, once a unit that touches it went from one
    /// zone to another, in ten-thousandths.
    #[inline]
    pub fn moved_total(&self, touch: Touch, held: u64, from: u8, to: u8) -> u64
        // The row and the zones.
        requires row { touch.row < target_count self.now }
        requires from { from < zone_count self.now }
        requires to { to < zone_count self.now }

        // The quantities, within their limit.
        requires held { held ≤ greatest_quantity }
        requires lost { gain_from self.now touch.row touch.amount from ≤ greatest_quantity }
        requires gained { gain_from self.now touch.row touch.amount to ≤ greatest_quantity }

        // The total after the move.
        ensures { result ≡ held_after self.now touch held from to }
    {
        let gained = self.gain_from(touch.row, touch.amount, to);
        let lost = self.gain_from(touch.row, touch.amount, from);
        (held + gained).saturating_sub(lost)
    }
}

/// The place of a zone of the set among its zones in rising order: how many of them are lower.
#[inline]
fn place_of(set: u64, zone: u8) -> usize
    requires { zone < most_zones }
    ensures { result ≡ length (places_below zone (λ k. bit_at set k == 1)) }
{
    (set & ((1 << zone) - 1)).count_ones() as usize
}

/// The remainder of a place by a count, without a division where the place is below twice the count.
#[inline]
fn turned(place: usize, count: usize) -> usize
    requires { 0 < count }
    ensures { result ≡ place % count }
{
    if place < count {
        return place;
    }
    let rest = place - count;
    if rest < count {
        return rest;
    }
    place % count
}
