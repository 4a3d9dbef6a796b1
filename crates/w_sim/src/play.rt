ghost use Rattle.std.specs.Prelude.{◌≡◌, ◌+◌, ◌<◌, ◌^◌, true, false, None, length, IfOk, OnOk};
ghost use Rattle.spec_script.specs.Configuration.{conf_of};
ghost use Rattle.spec_script.specs.Ranges.{IsGood};
ghost use Rattle.spec_world.specs.Admitted.{is_admitted};
ghost use Rattle.spec_world.specs.History.{refusal, stepped, world_of};
ghost use Rattle.spec_sim.specs.Schedule.{all_sent, link_opened, plan_of};
ghost use Rattle.w_sim.specs.Playing.{GoesOn, opened_play, stepped_play};

use crate::body::{first_decls, second_decls};
use crate::interpreters::Interpreters;
use crate::nodes::{first_node, second_node};
use it_types::{Bytes, Event, NoMemory, NodeId, PackNo};
use s_script::conf_of;
use spec_script::Script;
use std::alloc::Global;
use std::marker::Model;
use w_link::Link;
use w_world::{WErr, World};

/// The world of a script under way: where the bodies of both nodes have come to, and the packets between them.
#[derive(Drop)]
pub struct Play<'a> {
    pub(crate) world: World,
    pub(crate) first: Interpreters<'a>,
    pub(crate) second: Interpreters<'a>,
    pub(crate) link: Link,
}

impl<'a> Model for Play<'a> {
    ghost use Rattle.w_sim.specs.Playing.{Playing};

    ghost Value = { Playing };

    ghost view = { λ p. record { history = p.world; first = p.first; second = p.second; link = p.link } };
}

/// The link of a script, of which no packet is under way.
fn link_opened(alloc: Global, script: &Script) -> Link
    requires { IsGood script.now }
    ensures { result ≡ link_opened script.now }
{
    let [key, lose, twice, delay] = script.link;
    Link::open(alloc, key, lose as u32, twice as u32, delay as u32)
}

/// An event that nothing refuses happens. Without memory the world has ended.
fn step_world(world: &mut World, alloc: Global, event: Event) -> Result<(), NoMemory>
    requires { refusal world.old event ≡ None }
    ensures { OnOk result (world.new ≡ stepped world.old event) }
{
    match world.step(alloc, event) {
        Ok(()) => Ok(()),
        Err(WErr::NoMemory) => Err(NoMemory),
        Err(_) => unreachable!(),
    }
}

/// Sends the packets, numbered from this number on, at the tick `now`.
fn send_all(link: &mut Link, packets: &[Bytes], first: u32, now: u64) -> Result<(), NoMemory>
    requires numbers { first + length packets.now < 2 ^ 32 }
    requires clock { now < 2 ^ 62 }
    ensures { OnOk result (link.new ≡ all_sent first packets.now now link.old) }
{
    let mut number = first;
    for _packet in packets {
        link.sent(PackNo(number), now)?;
        number += 1;
    }
    Ok(())
}

impl<'a> Play<'a> {
    /// The script before its first event.
    pub fn open(alloc: Global, script: &'a Script) -> Result<Play<'a>, NoMemory>
        requires { IsGood script.now }
        ensures { IfOk result (λ p. p ≡ opened_play script.now) }
    {
        let conf = conf_of(alloc, script)?;
        Ok(Play {
            world: World::open(alloc, &conf)?,
            first: Interpreters::open(alloc, NodeId(0), first_decls(script))?,
            second: Interpreters::open(alloc, NodeId(1), second_decls(script))?,
            link: link_opened(alloc, script),
        })
    }

    pub fn world(&self) -> &World
        ensures { result.now ≡ self.now.history }
    {
        &self.world
    }

    pub fn into_world(self) -> World
        ensures { result ≡ self.entry.history }
    {
        self.world
    }

    /// The event happens, of which the play has come up to. Without memory the play is not used again.
    pub fn step(&mut self, alloc: Global, script: &'a Script, event: Event) -> Result<(), NoMemory>
        requires goes_on { GoesOn self.old }
        requires admitted { is_admitted (world_of self.old.history) event ≡ true }
        ensures { OnOk result (self.new ≡ stepped_play (plan_of script.now) self.old event) }
    {
        let sent = self.world.packets();
        step_world(&mut self.world, alloc, event)?;
        let first = first_node(&self.world);
        let second = second_node(&self.world);
        if let Some(entry) = self.world.log().last() {
            send_all(&mut self.link, entry.packs.as_slice(), sent, first.now())?;
            self.first.follow(
                alloc,
                NodeId(0),
                first_decls(script),
                entry,
                first.handler(),
            )?;
            self.second.follow(
                alloc,
                NodeId(1),
                second_decls(script),
                entry,
                second.handler(),
            )?;
        }
        Ok(())
    }
}
