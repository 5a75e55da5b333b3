//! What a problem is made of, as plain lists.
use mz_num::Items;

/// A row that asks for an amount of a feature: over all zones, or in one zone.
#[derive(Clone, Copy, Debug, PartialEq, Eq)]
pub struct Target {
    /// The place of the feature.
    pub feature: u32,
    /// The place of the zone in which the amount is asked; none for an overall row.
    pub zone: Option<u8>,
    /// How much is asked, in ten-thousandths. A row with level 0 asks for nothing.
    pub level: u64,
    /// The penalty where nothing is held, in ten-thousandths.
    pub weight: u64,
}

/// The parts of a problem: lists by place, each in the form that its line says.
#[derive(Debug, Drop)]
pub struct Parts {
    pub unit_ids: Items<u32>,
    pub zone_ids: Items<u32>,
    pub feature_ids: Items<u32>,
    /// The name of each feature.
    pub names: Items<Items<u8>>,
    /// The place of the available zone.
    pub available: u8,
    /// The allowed zones of each unit, as a set of bits by place.
    pub allowed: Items<u64>,
    /// The cost term of each unit in each zone, at `unit * zones + zone`.
    pub costs: Items<u64>,
    /// The rate of a boundary between two zones, in millionths, at `zone * zones + zone`.
    pub rates: Items<u64>,
    /// Pairs of neighbours, the lesser unit first, with the length between them: each once, in order.
    pub edges: Items<(u32, u32, u64)>,
    /// The length of each unit's boundary that no unit of the problem shares.
    pub outer: Items<u64>,
    /// One overall row for each feature, in order, then the rows of zones.
    pub targets: Items<Target>,
    /// Unit, feature and positive amount: each pair once, in order.
    pub amounts: Items<(u32, u32, u64)>,
    /// The part of a feature's amounts that counts in a zone, in millionths, at `zone * features + feature`.
    pub fractions: Items<u64>,
}
