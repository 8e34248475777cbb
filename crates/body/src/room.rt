// What a state keeps for the next starts.

ghost use Rattle.std.specs.Prelude.{◌≡◌};

use crate::columns::ColumnRequests;
use crate::opening::MOST_ROOM;
use crate::row_order::RowOrder;
use crate::view::View;
use crate::view_column::ViewColumn;
use crate::view_query::ColumnIndex;
use query_plan::{RowBuffers, Spares};
use std::alloc::Global;

/// The lists of queries that are closed, as scratch. A query that opens takes no memory for them once one like it was
/// closed. A list that is taken has no elements.
#[derive(Drop)]
pub struct QueryRoom {
    /// The buffers of rows.
    pub(crate) rows: RowBuffers,
    /// Where the columns are that a query asks a world for.
    pub(crate) requests: ColumnRequests,
    /// Lists for the numbers of columns.
    pub(crate) slots: Spares<Vec<ColumnIndex>>,
    /// Lists for columns.
    pub(crate) columns: Spares<Vec<ViewColumn>>,
    /// How many runs have begun since entities changed.
    pub(crate) calm_runs: u32,
    /// How much room there is for plans that are kept, in listed rows.
    pub(crate) room_left: usize,
    /// The mark of the plan that was kept last.
    pub(crate) mark: u64,
}

impl QueryRoom {
    // A run begins.
    pub(crate) fn begin(&mut self) {
        self.calm_runs = self.calm_runs.saturating_add(1);
    }

    // Entities changed: plans are no more kept.
    pub(crate) fn forget(&mut self) {
        self.calm_runs = 0;
        self.room_left = MOST_ROOM;
    }

    // The mark of a plan that is kept.
    pub(crate) fn next_mark(&mut self) -> u64 {
        self.mark = self.mark.saturating_add(1);
        self.mark
    }

    /// Nothing is kept.
    pub fn new(alloc: Global) -> Self
        ensures slots { result.slots ≡ 0 }
        ensures columns { result.columns ≡ 0 }
    {
        QueryRoom {
            rows: RowBuffers::new(alloc),
            requests: ColumnRequests::none(alloc),
            slots: Spares::new(alloc),
            columns: Spares::new(alloc),
            calm_runs: 0,
            room_left: MOST_ROOM,
            mark: 0,
        }
    }
}

/// The lists of queries and views that are closed, which are used again: so a start takes no memory for them once one like it was done.
#[derive(Drop)]
pub(crate) struct Room {
    /// The lists of queries.
    pub(crate) queries: QueryRoom,
    /// Views that are closed.
    pub(crate) views: Spares<Box<View>>,
    /// The order of rows of each system by number, where it is that of a plan that is kept.
    orders: Vec<RowOrder>,
}

impl Room {
    /// Nothing is kept.
    pub(crate) fn new(alloc: Global) -> Self
        ensures { result.views ≡ 0 }
    {
        Room {
            queries: QueryRoom::new(alloc),
            views: Spares::new(alloc),
            orders: Vec::new(alloc),
        }
    }

    // Lends the order of a system to a view.
    pub(crate) fn lend_order(&mut self, system: usize, view: &mut View) {
        if let Some(order) = self.orders.get_mut(system) {
            if order.is_kept() {
                view.swap_order(order);
            }
        }
    }

    // Keeps the order of a view of a system, where it is that of a plan that is kept, and there is memory for its place.
    pub(crate) fn keep_order(&mut self, alloc: Global, system: usize, view: &mut View) {
        if !view.has_kept_order() {
            return;
        }
        while self.orders.len() <= system {
            if self.orders.push(RowOrder::new(alloc)).is_err() {
                return;
            }
        }
        if let Some(order) = self.orders.get_mut(system) {
            view.swap_order(order);
        }
    }

    // Entities changed.
    pub(crate) fn forget(&mut self) {
        self.queries.forget();
        self.orders.clear();
    }
}
