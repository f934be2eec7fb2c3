//! Putting an item in the place of the one of its name. No rule refuses it, save one of a signal
//! and its block; without memory the tables stay as they were.
ghost use Rattle.std.specs.Prelude.{◌≡◌, ◌≤◌, ◌+◌, ℕ, true, length, All, Some, None, IfOk, IfErr, OnOk, OnErr};
ghost use Rattle.std.specs.Option.{option_map};
ghost use Rattle.rail_model.specs.declared.items.Item.TheVariants as item;
ghost use Rattle.rail_model.specs.Rules.{rule_of_change, after_change};
ghost use Rattle.rail_model.specs.Within.{is_within};
ghost use Rattle.line_tables.specs.AnswersEdit.{AnswersEdit};
ghost use Rattle.line_tables.specs.declared.linked.Linked.{Linked};
ghost use Rattle.line_tables.specs.declared.kept_route.KeptRoute.{KeptRoute};
ghost use Rattle.line_tables.specs.Table.{under, with_change};
ghost use Rattle.line_tables.specs.Links.{IsKey, block_of};
ghost use Rattle.line_tables.specs.KeyCounts.{count_of, times, SameCounts};
ghost use Rattle.line_tables.specs.RouteSets.{SameSets, IsChangedAt};

use crate::LineTables;
use crate::kept_route::KeptRoute;
use crate::key_counts::KeyCounts;
use crate::linked::{Linked, block_of, change_linked, keys_of, one_key, swap_linked};
use crate::named_table::NamedTable;
use crate::route_sets::RouteSets;
use crate::route_signals::{RouteSignals, route_signals};
use rail_model::{Block, Connection, OutOfMemory, Route, Rule, Run, Section, Signal};

impl LineTables {
    pub(crate) fn replace_block(&mut self, block: Block)
        requires { rule_of_change self.old (item.Block block) ≡ None }
        ensures { self.new ≡ after_change self.old (item.Block block) }
    {
        let key = self.blocks.key_of(&block.name).unwrap();
        self.blocks.change(key, block);
    }

    // Puts a signal in the place of the one of its name, or tells the rule by which its name or its
    // block refuses it. Both are looked up once: for the rules, for its entry, for the counts and
    // for the sets.
    pub(crate) fn replace_signal(&mut self, signal: Signal) -> Result<Result<(), Rule>, OutOfMemory>
        requires { is_within (item.Signal signal) ≡ true }
        ensures { AnswersEdit (rule_of_change self.old (item.Signal signal)) (after_change self.old (item.Signal signal))
            result self.old self.new }
    {
        self.routes.learn_order();
        let Some(key) = self.signals.key_of(&signal.name) else {
            return Ok(Err(Rule::Unknown));
        };
        let Some(to) = self.blocks.key_of(&signal.block) else {
            return Ok(Err(Rule::Unknown));
        };
        let from = block_of(&self.signals, key);
        if self.route_sets.meet_where_moved(key, from, to) {
            return Ok(Err(Rule::Twice));
        }
        let refs = one_key(self.alloc, to)?;
        self.route_sets.make_room_to_move(key, from, to)?;
        change_linked(&mut self.signals, &mut self.block_uses, key, signal, refs)?;
        self.route_sets.move_routes(key, from, to);
        Ok(Ok(()))
    }

    // Puts a route in the place of the one of its name, or tells the rule by which its name, what
    // it refers to or the runs on it refuse it. Its signals are looked up once: for the rules, for
    // its entry, for the counts and for the sets.
    pub(crate) fn replace_route(&mut self, route: &Route) -> Result<Result<(), Rule>, OutOfMemory>
        requires { is_within (item.Route route.now) ≡ true }
        ensures { AnswersEdit (rule_of_change self.old (item.Route route.now))
            (after_change self.old (item.Route route.now)) result self.old self.new }
    {
        self.blocks.learn_order();
        let Some(key) = self.routes.key_of(&route.name) else {
            return Ok(Err(Rule::Unknown));
        };
        let Some(found) = route_signals(self.alloc, &self.signals, &route.signals)? else {
            return Ok(Err(Rule::Unknown));
        };
        if found.twice {
            return Ok(Err(Rule::Twice));
        }
        if self.makes_miscount(route) {
            return Ok(Err(Rule::Count));
        }
        swap_route(
            &self.signals,
            &mut self.routes,
            &mut self.signal_uses,
            &mut self.route_sets,
            key,
            FoundRoute {
                route: KeptRoute { name: route.name },
                signals: found,
            },
        )?;
        Ok(Ok(()))
    }

    pub(crate) fn replace_run(&mut self, run: Run) -> Result<(), OutOfMemory>
        requires { rule_of_change self.old (item.Run run) ≡ None }
        ensures changed { OnOk result (self.new ≡ after_change self.old (item.Run run)) }
        ensures kept { OnErr result (self.new ≡ self.old) }
    {
        let refs = keys_of(self.alloc, &self.routes, &[run.route])?;
        let key = self.runs.key_of(&run.name).unwrap();
        change_linked(&mut self.runs, &mut self.route_uses, key, run, refs)?;
        Ok(())
    }

    pub(crate) fn replace_section(&mut self, section: Section) -> Result<(), OutOfMemory>
        requires { rule_of_change self.old (item.Section section) ≡ None }
        ensures changed { OnOk result (self.new ≡ after_change self.old (item.Section section)) }
        ensures kept { OnErr result (self.new ≡ self.old) }
    {
        let refs = keys_of(self.alloc, &self.blocks, section.blocks.slice())?;
        let key = self.sections.key_of(&section.name).unwrap();
        change_linked(&mut self.sections, &mut self.block_uses, key, section, refs)?;
        Ok(())
    }

    pub(crate) fn replace_connection(&mut self, connection: Connection) -> Result<(), OutOfMemory>
        requires { rule_of_change self.old (item.Connection connection) ≡ None }
        ensures changed { OnOk result (self.new ≡ after_change self.old (item.Connection connection)) }
        ensures kept { OnErr result (self.new ≡ self.old) }
    {
        let refs = keys_of(
            self.alloc,
            &self.runs,
            &[connection.first, connection.second],
        )?;
        let key = self.connections.key_of(&connection.name).unwrap();
        change_linked(
            &mut self.connections,
            &mut self.run_uses,
            key,
            connection,
            refs,
        )?;
        Ok(())
    }
}

// A route, with what was found of its signals.
#[derive(Drop)]
struct FoundRoute {
    route: KeptRoute,
    signals: RouteSignals,
}

// Puts a route in the place of the one under a key, and counts its signals in place of those of
// that one. Its key goes out of the sets of those and of their blocks, and into those of its own.
// Without memory all stays.
fn swap_route(
    signals: &NamedTable<Linked<Signal>>,
    routes: &mut NamedTable<Linked<KeptRoute>>,
    uses: &mut KeyCounts,
    sets: &mut RouteSets,
    key: usize,
    found: FoundRoute,
) -> Result<(), OutOfMemory>
    requires same_name { option_map (λ e. e.item.name) (under routes.old key) ≡ Some found.route.name }
    requires counted_before { (e : Linked KeptRoute) (k : ℕ) → under routes.old key ≡ Some e
        → times k e.refs ≤ count_of uses.old k }
    requires there { (e : Linked KeptRoute) → under routes.old key ≡ Some e
        → All (IsKey signals.now) e.refs }
    requires one { All (λ e. length e.1.refs ≡ 1) signals.now }
    ensures changed { OnOk result
        (routes.new ≡ with_change routes.old key (record { item = found.route; refs = found.signals.keys })) }
    ensures counted { OnOk result ((e : Linked KeptRoute) (k : ℕ) → under routes.old key ≡ Some e
        → count_of uses.new k + times k e.refs ≡ count_of uses.old k + times k found.signals.keys) }
    ensures signals { OnOk result ((e : Linked KeptRoute) → under routes.old key ≡ Some e
        → IsChangedAt (λ q. q) e.refs (λ q. q) found.signals.keys key sets.old.of_signals sets.new.of_signals) }
    ensures blocks { OnOk result ((e : Linked KeptRoute) → under routes.old key ≡ Some e
        → IsChangedAt (block_of signals.now) e.refs (λ q. q) found.signals.blocks key sets.old.of_blocks sets.new.of_blocks) }
    ensures kept { OnErr result (routes.new ≡ routes.old) }
    ensures kept_counts { OnErr result (SameCounts uses.old uses.new) }
    ensures kept_signals { OnErr result (SameSets sets.old.of_signals sets.new.of_signals) }
    ensures kept_blocks { OnErr result (SameSets sets.old.of_blocks sets.new.of_blocks) }
{
    uses.make_room(found.signals.keys.slice())?;
    sets.change(
        signals,
        routes.get(key).refs.slice(),
        found.signals.keys.slice(),
        found.signals.blocks.slice(),
        key,
    )?;
    swap_linked(routes, uses, key, found.route, found.signals.keys);
    Ok(())
}
