// The seats through which threads step on the table.
use crate::view::View;
use atomic_table::Seat;
use std::marker::Model;

/// A seat with which a thread touches pages. In contracts it is its table, its worker's number and
/// its touches in order.
///
/// A touch seat that is dropped stays out forever, so `PageWords::settle` cannot be called.
#[derive(Drop)]
pub struct TouchSeat {
    pub(crate) seat: Seat<u8, View>,
}

impl Model for TouchSeat {
    ghost use Rattle.page_words.specs.Seats.{TouchSeatView, worker_of, touches_of, IsTouchSeat};

    ghost Value = { TouchSeatView };

    ghost view = { λ s. record {
      table = s.seat.table_id;
      worker = worker_of s.seat.me.0;
      touches = touches_of s.seat.me.0;
    } };

    ghost invariant = { λ s. IsTouchSeat s.seat.me };
}

/// The seat with which the monitor clears and loads pages, and splits off and gathers touch seats. In
/// contracts it is its table, its entries in order (clears, loads and gathered seats), and the number
/// of touch seats that are out.
///
/// A table has one such seat. If it is dropped, `PageWords::settle` cannot be called.
#[derive(Drop)]
pub struct MonitorSeat {
    pub(crate) seat: Seat<u8, View>,
    pub(crate) out: u32,
    pub(crate) last: u64,
}

impl Model for MonitorSeat {
    ghost use Rattle.std.specs.Prelude.{◌≡◌};
    ghost use Rattle.page_words.specs.Clears.{last_clear_pass};
    ghost use Rattle.page_words.specs.Seats.{MonitorSeatView, entries_of, IsMonitorSeat};

    ghost Value = { MonitorSeatView };

    ghost view = { λ s. record { table = s.seat.table_id; entries = entries_of s.seat.me.0; out = s.out } };

    ghost invariant = { λ s. IsMonitorSeat s.seat.me s.out × (s.last ≡ last_clear_pass (entries_of s.seat.me.0)) };
}

impl MonitorSeat {
    ghost use Rattle.std.specs.Prelude.{◌≡◌};
    ghost use Rattle.page_words.specs.Clears.{last_clear_pass};

    /// The number of touch seats that were split off and not gathered.
    pub fn out(&self) -> u32
        ensures { result ≡ self.now.out }
    {
        self.out
    }

    /// The pass of the last clear, 0 before the first one.
    pub fn last(&self) -> u64
        ensures { result ≡ last_clear_pass self.now.entries }
    {
        self.last
    }
}
