//! The schedule's choice of the next event. The task or handler that makes it has come up to it then, and a delivery is taken from
//! the link. Without memory the play is not used again.

ghost use Rattle.std.specs.Prelude.{◌≡◌, false, IfOk};
ghost use Rattle.spec_sim.specs.Schedule.{plan_of, is_over, idle_event, running_event, packet_event, due_event, next};
ghost use Rattle.w_sim.specs.Playing.{asked_play, play_of};

use crate::nodes::{first_node, second_node};
use crate::play::Play;
use it_types::{Event, NoMemory, NodeId};
use spec_script::Script;
use std::alloc::Global;

impl<'a> Play<'a> {
    /// The next event of the schedule: that of the handler that has begun on node 0, else of that of node 1, else what
    /// follows on them.
    pub fn next(&mut self, alloc: Global, script: &Script) -> Result<Event, NoMemory>
        requires { self.old.history.ended ≡ false }
        ensures event { IfOk result (λ event. event ≡ next (plan_of script.now) (play_of self.old)) }
        ensures place { IfOk result (λ event. self.new ≡ asked_play self.old event) }
    {
        if first_node(&self.world).handler().is_some() {
            return self.first.handler_event(alloc, NodeId(0));
        }
        if second_node(&self.world).handler().is_some() {
            return self.second.handler_event(alloc, NodeId(1));
        }
        self.due_event(alloc, script)
    }

    /// A handler that is due on node 0 begins, else one that is due on node 1, else what follows on handlers.
    fn due_event(&mut self, alloc: Global, script: &Script) -> Result<Event, NoMemory>
        requires { self.old.history.ended ≡ false }
        ensures event { IfOk result (λ event. event ≡ due_event (plan_of script.now) (play_of self.old)) }
        ensures place { IfOk result (λ event. self.new ≡ asked_play self.old event) }
    {
        if first_node(&self.world).has_due() {
            Ok(Event::Begin(NodeId(0)))
        } else if second_node(&self.world).has_due() {
            Ok(Event::Begin(NodeId(1)))
        } else {
            self.packet_event(alloc, script)
        }
    }

    /// The first delivery that is due by the ticks of node 0, else what the running tasks do.
    fn packet_event(&mut self, alloc: Global, script: &Script) -> Result<Event, NoMemory>
        requires { self.old.history.ended ≡ false }
        ensures event { IfOk result (λ event. event ≡ packet_event (plan_of script.now) (play_of self.old)) }
        ensures place { IfOk result (λ event. self.new ≡ asked_play self.old event) }
    {
        let now = first_node(&self.world).now();
        if let Some(packet) = self.link.next(now) {
            return Ok(Event::Deliver(packet));
        }
        self.running_event(alloc, script)
    }

    /// The event of the running task of node 0, else that of node 1, else the stop or a tick.
    fn running_event(&mut self, alloc: Global, script: &Script) -> Result<Event, NoMemory>
        requires { self.old.history.ended ≡ false }
        ensures event { IfOk result (λ event. event ≡ running_event (plan_of script.now) (play_of self.old)) }
        ensures place { IfOk result (λ event. self.new ≡ asked_play self.old event) }
    {
        let first = first_node(&self.world);
        let second = second_node(&self.world);
        if first.running().0 != 0 {
            return self
                .first
                .task_event(alloc, NodeId(0), first, first.running());
        }
        if second.running().0 != 0 {
            return self
                .second
                .task_event(alloc, NodeId(1), second, second.running());
        }
        Ok(self.idle_event(script))
    }

    /// The stop, or a tick of the node with fewer ticks, node 0 where they are equal.
    fn idle_event(&self, script: &Script) -> Event
        requires { self.now.history.ended ≡ false }
        ensures { result ≡ idle_event (plan_of script.now) (play_of self.now) }
    {
        if self.is_over(script) {
            Event::Stop
        } else if first_node(&self.world).now() <= second_node(&self.world).now() {
            Event::Tick(NodeId(0))
        } else {
            Event::Tick(NodeId(1))
        }
    }

    /// Whether every task of both nodes is dormant and no delivery is left, or both nodes had all their ticks.
    fn is_over(&self, script: &Script) -> bool
        requires { self.now.history.ended ≡ false }
        ensures { result ≡ is_over (plan_of script.now) (play_of self.now) }
    {
        let ticks = u64::from(script.ticks);
        let first = first_node(&self.world);
        let second = second_node(&self.world);
        let dormant = !first.is_any_active() && !second.is_any_active();
        (dormant && self.link.idle()) || (ticks <= first.now() && ticks <= second.now())
    }
}
