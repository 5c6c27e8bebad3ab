//! A stimulus that was read: one value for each input and row, in one list.

ghost use Rattle.std.specs.Prelude.{◌≡◌, ◌<◌, ◌≤◌, ◌+◌, ◌*◌, Some, length, map, slice_get, take, drop};
ghost use Rattle.stim_text.specs.Stimulus.{Stimulus, IsStimulus, rows_in};

use bv_core::Bv;
use design_core::Ports;
use std::marker::Model;

/// A stimulus: the values of a design's inputs in each cycle. It keeps that it has at most 1,000,000 rows, and that
/// each row has one value for each input of its ports, in order and of its width.
#[derive(Drop)]
pub struct Stim {
    ports: Ports,
    count: u64,
    values: Vec<Bv>,
}

impl Model for Stim {
    ghost use Rattle.std.specs.Prelude.{◌≡◌, ◌*◌, length};
    ghost use Rattle.stim_text.specs.Stimulus.{Stimulus, IsStimulus, rows_in};

    ghost Value = { Stimulus };

    ghost view = { λ s. record { ports = s.ports; rows = rows_in (length s.ports.inputs) s.count s.values.items } };

    ghost invariant = { λ s. IsStimulus (record { ports = s.ports; rows = rows_in (length s.ports.inputs) s.count s.values.items })
        × (length s.values.items ≡ s.count * length s.ports.inputs) };
}

impl Stim {
    /// The stimulus of so many rows, whose values lie one row behind the other.
    pub(crate) fn new(ports: Ports, count: u64, values: Vec<Bv>) -> Stim
        requires kept { IsStimulus (record { ports = ports; rows = rows_in (length ports.inputs) count values.items }) }
        requires len { length values.items ≡ count * length ports.inputs }
        ensures made { result ≡ record { ports = ports; rows = rows_in (length ports.inputs) count values.items } }
        ensures kept { IsStimulus result }
    {
        Stim {
            ports,
            count,
            values,
        }
    }

    /// How many rows it has, at most 1,000,000.
    pub fn rows(&self) -> u64
        ensures rows { result ≡ length self.now.rows }
        ensures kept { IsStimulus self.now }
    {
        self.count
    }

    /// The row of cycle t, counted from 0: one value for each input, in order and of its width.
    pub fn row(&self, t: u64) -> &[Bv]
        requires { t < length self.now.rows }
        ensures row { slice_get self.now.rows t ≡ Some result.now }
        ensures widths { map (λ value. value.width) result.now ≡ map (λ input. input.1) self.now.ports.inputs }
    {
        row_at(&self.values, self.ports.inputs.items().len(), t as usize)
    }

    /// The ports that it was read by.
    pub fn ports(&self) -> &Ports
        ensures { result.now ≡ self.now.ports }
    {
        &self.ports
    }
}

/// The row of a place, of rows of this length that lie one behind the other.
fn row_at(values: &[Bv], len: usize, place: usize) -> &[Bv]
    requires { place * len + len ≤ length values.now }
    ensures { result.now ≡ take len (drop (place * len) values.now) }
{
    let (_, rest) = values.split_at(place * len);
    let (row, _) = rest.split_at(len);
    row
}
