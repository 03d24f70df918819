//! The table.
ghost use Rattle.std.specs.Prelude.{◌≡◌, ◌<◌, ◌≤◌};
ghost use Rattle.vbr_words.specs.Packing.{slot_bits};
ghost use Rattle.vbr_words.specs.declared.link.TheConstants.{SLOT_BITS};
ghost use Rattle.vbr_machine.specs.Start.{IsStart};
ghost use Rattle.vbr_slots.specs.declared.opening.TheConstants.{MAX_MANY_PASSES};

use crate::rule::{Opening, OpeningWithEntries, RunRule, Witness};
use atomic_table::Table;
use std::alloc::Global;
use std::collections::LinkedList;
use std::marker::{Model, PhantomData};
use vbr_words::{Keys, Layout, Nodes, Shape};

/// The words of a set, or of a map, shared by the passes that were opened with it. Its nodes are of one
/// kind: [`Keys`], which is the table of a set, or [`vbr_words::Entries`], that of a map.
#[derive(Drop)]
pub struct Slots<N: Nodes = Keys> {
    pub(crate) table: Table<(), LinkedList<Witness>, OpeningWithEntries, RunRule, Global>,
    pub(crate) opening: Opening,
    pub(crate) nodes: PhantomData<N>,
}

impl<N: Nodes> Model for Slots<N> {
    ghost use Rattle.vbr_slots.specs.views.Views.{TableView};

    ghost Value = { TableView };

    ghost use Rattle.vbr_slots.specs.views.SlotsView.{table_of, IsBuilt};

    ghost view = { table_of };

    ghost invariant = { IsBuilt N.VALUES };
}

impl<N: Nodes> Slots<N> {
    /// A law: its nodes have values exactly if its kind has them. It does nothing.
    #[inline]
    pub fn kind(&self)
        ensures { self.now.start.shape.values ≡ N.VALUES }
    {
        let _slots = self.opening.shape.slots();
    }

    /// Its shape.
    #[inline]
    pub fn shape(&self) -> Shape
        ensures shape { result ≡ self.now.start.shape }
        ensures is_start { IsStart self.now.start }
    {
        let _slots = self.opening.shape.slots();
        self.opening.shape
    }

    /// How its link words are kept.
    #[inline]
    pub fn layout(&self) -> Layout
        ensures layout { result ≡ slot_bits self.now.start.shape.slots }
        ensures few { result ≤ SLOT_BITS }
    {
        self.opening.shape.layout()
    }

    /// How many passes it was opened with: from 1 to `MAX_MANY_PASSES`.
    #[inline]
    pub fn passes(&self) -> u32
        ensures passes { result ≡ self.now.passes }
        ensures some { 0 < result }
        ensures few { result ≤ MAX_MANY_PASSES }
    {
        self.opening.passes
    }
}
