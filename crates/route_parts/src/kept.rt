//! The cumuls along the routes of a view, kept from both ends, so that a move is judged by its middle.
ghost use Rattle.std.specs.Prelude.{◌≡◌, ◌≢◌, ℕ, ◌+◌, ◌*◌, ◌<◌, ◌≤◌, List, [], ◌∷◌, ◌++◌, length, Option, IfOk, IfSome, IsTrue, ◌↔◌, All};
ghost use Rattle.callback_store.specs.Registry.{tables};
ghost use Rattle.dimension_core.specs.Cumuls.{IsCumul, IsServed, IsSpan, Reaches, table_of, last_of};
ghost use Rattle.dimension_core.specs.Onward.{IsOnward};
ghost use Rattle.dimension_core.specs.Setting.{Setting};
ghost use Rattle.dimension_core.specs.Setup.{setting};
ghost use Rattle.route_parts.specs.Kept.{span_at, AreAhead, AreBehind, AreKept};
ghost use Rattle.route_parts.specs.Given.{Laws};
ghost use Rattle.route_parts.specs.View.{IsViewOf};

use crate::laws::laws_below;
use callback_store::{Meter, Registry};
use dimension_core::{Dimension, Range, Setup};
use limits::MOST_CUSTOMERS;
use pin_core::View;
use std::alloc::{AllocError, Global};
use std::marker::Model;

/// Spans of cumuls, as many for each dimension as the width says; none where there are no cumuls.
#[derive(Drop)]
pub struct Spans {
    width: usize,
    cells: Vec<Option<Range>>,
}

impl Model for Spans {
    ghost use Rattle.route_parts.specs.Kept.{SpanTable};

    ghost Value = { SpanTable };

    ghost view = { λ a. record { width = a.width; cells = a.cells.items } };
}

impl Spans {
    /// No spans.
    #[inline(always)]
    pub(crate) fn none(alloc: Global) -> Spans
        ensures { result.width ≡ 0 }
    {
        Spans {
            width: 0,
            cells: Vec::new(alloc),
        }
    }

    /// Forgets the spans. Their memory is kept.
    #[inline(always)]
    pub(crate) fn forget(&mut self)
        ensures { self.new.width ≡ 0 }
    {
        self.width = 0;
    }

    /// Whether there are spans.
    pub(crate) fn are_kept(&self) -> bool
        ensures { IsTrue result ↔ (0 < self.now.width) }
    {
        self.width > 0
    }

    /// The span at a place in a dimension, both counted from 0.
    pub(crate) fn at(&self, dimension: usize, place: usize) -> Option<Range>
        requires { dimension * self.now.width + place < length self.now.cells }
        ensures { result ≡ span_at self.now dimension place }
    {
        self.cells[dimension * self.width + place]
    }
}

/// What is kept for a vehicle: the spans after each number of the first customers of its route, those before each number of its last ones,
/// and before each number of the last ones of the other vehicle.
#[derive(Drop)]
pub struct Kept {
    pub(crate) ahead: Spans,
    pub(crate) behind: Spans,
    pub(crate) over: Spans,
}

impl Model for Kept {
    ghost use Rattle.route_parts.specs.Kept.{KeptSpans};

    ghost Value = { KeptSpans };

    ghost view = { λ a. record { ahead = a.ahead; behind = a.behind; over = a.over } };
}

/// The cumuls at a node after those at the node before it.
fn span_after(
    dimension: &Dimension,
    registry: &Registry,
    span: Option<Range>,
    from: u32,
    node: u32,
    vehicle: u32,
) -> Option<Range>
    requires laws { Laws }
    requires served { IsServed (tables registry.now) dimension.now }
    requires from { from < length dimension.now.ranges }
    requires node { node < length dimension.now.ranges }
    requires low { 1 ≤ vehicle }
    requires high { vehicle ≤ length dimension.now.caps }
    ensures { (done : List ℕ) → IsSpan span (Reaches (table_of (tables registry.now) dimension.now) dimension.now vehicle done)
        → from ≡ last_of 0 done
        → IsSpan result (Reaches (table_of (tables registry.now) dimension.now) dimension.now vehicle (done ++ node ∷ [])) }
{
    match span {
        None => None,
        Some(range) => dimension.extend(registry, range, from, node, vehicle, &mut Meter::new()),
    }
}

/// The cumuls at the depot with which a vehicle may return.
fn span_home(dimension: &Dimension, vehicle: u32) -> Option<Range>
    requires low { 1 ≤ vehicle }
    requires high { vehicle ≤ length dimension.now.caps }
    ensures { IsSpan result (IsCumul dimension.now vehicle 0) }
{
    let _nodes = dimension.nodes();
    let depot = dimension.range(0);
    let hi = depot.hi.min(dimension.cap(vehicle));
    if depot.lo <= hi {
        Some(Range { lo: depot.lo, hi })
    } else {
        None
    }
}

/// The cumuls at a node from which the rest can be gone, by those at the next one.
fn span_before(
    dimension: &Dimension,
    registry: &Registry,
    span: Option<Range>,
    node: u32,
    next: u32,
    vehicle: u32,
) -> Option<Range>
    requires laws { Laws }
    requires served { IsServed (tables registry.now) dimension.now }
    requires filled { IfSome span (λ r. r.lo ≤ r.hi) }
    requires node { node < length dimension.now.ranges }
    requires next { next < length dimension.now.ranges }
    requires low { 1 ≤ vehicle }
    requires high { vehicle ≤ length dimension.now.caps }
    ensures { (rest : List ℕ) → IsSpan span (IsOnward (table_of (tables registry.now) dimension.now) dimension.now vehicle next rest)
        → IsSpan result (IsOnward (table_of (tables registry.now) dimension.now) dimension.now vehicle node (next ∷ rest)) }
{
    match span {
        None => None,
        Some(range) => dimension.precede(registry, range, node, next, vehicle, &mut Meter::new()),
    }
}

impl Spans {
    /// Keeps the spans after each number of the first customers of a route, as the vehicle drives it.
    fn keep_ahead(&mut self, setup: &Setup, vehicle: u32, route: &[u32]) -> Result<(), AllocError>
        requires laws { Laws }
        requires known { All (λ c. c ≤ (setting setup.now).customers) route.now }
        requires short { length route.now ≤ MOST_CUSTOMERS }
        requires low { 1 ≤ vehicle }
        requires high { vehicle ≤ (setting setup.now).vehicles }
        ensures { IfOk result (λ _. AreAhead (setting setup.now) vehicle route.now self.new) }
    {
        let width = route.len() + 1;
        let cells = &mut self.cells;
        cells.clear();
        cells.reserve(setup.dimensions().len() * width)?;
        for dimension in setup.dimensions() {
            let mut span = dimension.start(vehicle);
            let mut from = 0;
            cells.push(span)?;
            for customer in route {
                span = span_after(dimension, setup.registry(), span, from, *customer, vehicle);
                from = *customer;
                cells.push(span)?;
            }
        }
        self.width = width;
        Ok(())
    }

    /// Keeps the spans before each number of the last customers of a route, as the vehicle drives it.
    fn keep_behind(&mut self, setup: &Setup, vehicle: u32, route: &[u32]) -> Result<(), AllocError>
        requires laws { Laws }
        requires known { All (λ c. c ≤ (setting setup.now).customers) route.now }
        requires short { length route.now ≤ MOST_CUSTOMERS }
        requires low { 1 ≤ vehicle }
        requires high { vehicle ≤ (setting setup.now).vehicles }
        ensures { IfOk result (λ _. AreBehind (setting setup.now) vehicle route.now self.new) }
    {
        let width = route.len() + 1;
        let cells = &mut self.cells;
        cells.clear();
        cells.reserve(setup.dimensions().len() * width)?;
        for dimension in setup.dimensions() {
            let mut span = span_home(dimension, vehicle);
            let mut next = 0;
            cells.push(span)?;
            for k in 0..route.len() {
                let node = route[route.len() - 1 - k];
                span = span_before(dimension, setup.registry(), span, node, next, vehicle);
                next = node;
                cells.push(span)?;
            }
        }
        self.width = width;
        Ok(())
    }
}

impl Kept {
    /// Nothing kept: a new route is then judged by its whole way.
    #[inline(always)]
    pub fn none(alloc: Global) -> Kept
        ensures { (s : Setting) (routes : List (List ℕ)) (v w : ℕ) → AreKept s routes v w result }
    {
        Kept {
            ahead: Spans::none(alloc),
            behind: Spans::none(alloc),
            over: Spans::none(alloc),
        }
    }

    /// Forgets what is kept, and keeps its memory.
    #[inline(always)]
    pub fn forget(&mut self)
        ensures { (s : Setting) (routes : List (List ℕ)) (v w : ℕ) → AreKept s routes v w self.new }
    {
        self.ahead.forget();
        self.behind.forget();
        self.over.forget();
    }

    /// Keeps of a vehicle beside another one that by which moves between both are judged. Vehicles count from 1.
    pub fn keep_between(
        &mut self,
        view: &View,
        setup: &Setup,
        v: u32,
        w: u32,
    ) -> Result<(), AllocError>
        requires view { IsViewOf (setting setup.now) view.now }
        requires v { (1 ≤ v) × (v ≤ (setting setup.now).vehicles) }
        requires w { (1 ≤ w) × (w ≤ (setting setup.now).vehicles) }
        ensures kept { IfOk result (λ _. AreKept (setting setup.now) view.now.routes v w self.new) }
        ensures some { IfOk result (λ _. (0 < self.new.ahead.width) × (0 < self.new.behind.width) × (0 < self.new.over.width)) }
    {
        laws_below();
        self.keep_alone(view, setup, v)?;
        self.over.keep_behind(setup, v, view.customers(w))
    }

    /// Keeps of a vehicle alone that by which moves inside it are judged. Vehicles count from 1.
    #[inline(always)]
    pub fn keep_alone(&mut self, view: &View, setup: &Setup, v: u32) -> Result<(), AllocError>
        requires view { IsViewOf (setting setup.now) view.now }
        requires v { (1 ≤ v) × (v ≤ (setting setup.now).vehicles) }
        ensures kept { IfOk result (λ _. AreKept (setting setup.now) view.now.routes v v self.new) }
        ensures some { IfOk result (λ _. (0 < self.new.ahead.width) × (0 < self.new.behind.width)) }
    {
        laws_below();
        let _customers = setup.customers();
        let own = view.customers(v);
        self.ahead.keep_ahead(setup, v, own)?;
        self.behind.keep_behind(setup, v, own)
    }
}
