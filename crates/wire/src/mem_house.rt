//! A house in memory, with planned faults.
ghost use Rattle.std.specs.Prelude.{◌≡◌, ◌≤◌, ◌<◌, ◌+◌, ◌∷◌, ◌↔◌, ◌==◌, length, map, vec_len, position, IfOk, OnOk, OnErr, IsErr, IsErrOf, IsTrue, Some, None};
ghost use Rattle.wire.specs.DoorInMemory.{IsNewLink};
ghost use Rattle.wire.specs.Houses.{HasLentDoors, HasLentLink, IsNewPort, link_back, rose_once};
ghost use Rattle.wire.specs.HouseInMemory.{AreGivenDoors, AreGone, AreNewDoors, IsNewDoor, IsNewLinkAt};
ghost use Rattle.wire.specs.HouseInMemory.{call_fails, count_at, doors_at, doors_fail, first_at, house_told};
ghost use Rattle.wire.specs.HouseInMemory.{with_asked, with_call, with_call_fault, with_doors, with_doors_fault, with_hung_up, with_shut};

use crate::faults::{count_fault, is_planned};
use crate::{DoorsAsked, Failed, House, HouseError, MemDoor, MemLink};
use arrayvec::ArrayVec;
use std::alloc::{AllocError, Global};
use std::marker::Model;

/// A house in memory, for tests. It gives the doors and the link that it was made with, keeps those
/// that are handed back, and fails at the planned calls.
#[derive(Drop)]
pub struct MemHouse {
    doors: Vec<(u16, MemDoor)>,
    doors_given: usize,
    doors_back: Vec<MemDoor>,
    link: Option<(u16, MemLink)>,
    links_given: usize,
    links_back: Vec<(Option<u16>, MemLink)>,
    fails: Vec<u64>,
    calls: u64,
    asked: ArrayVec<DoorsAsked, 2>,
    called: Option<u16>,
    door_faults: u64,
    read_faults: u64,
    write_faults: u64,
}

impl Model for MemHouse {
    ghost use Rattle.std.specs.Prelude.{◌+◌, ◌≤◌, length, map, vec_len, vec_capacity, option_to_list};
    ghost use Rattle.wire.specs.HouseInMemory.{HouseInMemory, AreNewDoors, IsNewLinkAt};
    ghost use Rattle.wire.specs.Houses.{link_back};

    ghost Value = { HouseInMemory };

    ghost view = { λ house. record {
      doors = house.doors.items;
      link = house.link;
      fails = house.fails.items;
      calls = house.calls;
      asked = house.asked.items;
      called = house.called;
      lent = record {
        doors_given = house.doors_given;
        doors_back = house.doors_back.items;
        links_given = house.links_given;
        links_back = map link_back house.links_back.items;
      };
      door_faults = house.door_faults;
      read_faults = house.read_faults;
      write_faults = house.write_faults;
    } };

    ghost invariant = { λ house. AreNewDoors house.doors.items × IsNewLinkAt house.link
        × (house.doors_given + vec_len house.doors ≤ vec_capacity house.doors_back)
        × (house.links_given + length (option_to_list house.link)
        ≤ vec_capacity house.links_back) };
}

impl MemHouse {
    ghost use Rattle.wire.specs.HouseInMemory.{AreNewDoors, IsNewLinkAt, new_house};

    /// A house that gives these doors and this link, each at its port. `fails` lists the numbers of the calls of
    /// `doors` and `call` that fail; the first of either is number 1.
    ///
    /// # Errors
    ///
    /// `AllocError` if memory runs out.
    pub fn new(
        alloc: Global,
        doors: Vec<(u16, MemDoor)>,
        link: Option<(u16, MemLink)>,
        fails: Vec<u64>,
    ) -> Result<MemHouse, AllocError>
        requires doors { AreNewDoors doors.items }
        requires link { IsNewLinkAt link }
        ensures { IfOk result (λ house. house ≡ new_house doors.items link fails.items) }
    {
        Ok(MemHouse {
            doors_given: 0,
            doors_back: Vec::with_capacity(alloc, doors.len())?,
            links_given: 0,
            links_back: Vec::with_capacity(alloc, 1)?,
            doors,
            link,
            fails,
            calls: 0,
            asked: ArrayVec::new(),
            called: None,
            door_faults: 0,
            read_faults: 0,
            write_faults: 0,
        })
    }

    /// The doors that were handed back.
    pub fn doors_back(&self) -> &[MemDoor]
        ensures { result.now ≡ self.now.lent.doors_back }
    {
        &self.doors_back
    }

    /// The links that were handed back, each with the port of its call.
    pub fn links_back(&self) -> &[(Option<u16>, MemLink)]
        ensures { map link_back result.now ≡ self.now.lent.links_back }
    {
        &self.links_back
    }

    /// The requests for doors.
    pub fn asked(&self) -> &[DoorsAsked]
        ensures { result.now ≡ self.now.asked }
    {
        self.asked.as_slice()
    }

    // Whether it refuses `count` doors at this port.
    fn refuses(&self, port: u16, count: usize) -> bool
        ensures { result ≡ doors_fail self.now port count }
    {
        let call = self.calls.saturating_add(1);
        is_planned(&self.fails, call) || count_at(&self.doors, port) < count
    }

    /// How often `doors` has failed, and how often doors were handed back of which one had failed.
    pub fn door_fault_count(&self) -> u64
        ensures { result ≡ self.now.door_faults }
    {
        self.door_faults
    }

    /// How often `call` has failed, and how often a link was handed back that had failed to receive.
    pub fn read_fault_count(&self) -> u64
        ensures { result ≡ self.now.read_faults }
    {
        self.read_faults
    }

    /// How often a link was handed back that had failed to send.
    pub fn write_fault_count(&self) -> u64
        ensures { result ≡ self.now.write_faults }
    {
        self.write_faults
    }
}

// How many doors are at this port.
fn count_at(doors: &[(u16, MemDoor)], port: u16) -> usize
    ensures { result ≡ count_at port doors.now }
{
    doors.iter().filter(|door| door.0 == port).count()
}

// The index of the first door at this port.
fn place_at(doors: &[(u16, MemDoor)], port: u16) -> Option<usize>
    ensures { result ≡ position (λ door. door.0 == port) doors.now }
{
    doors.iter().position(|door| door.0 == port)
}

// Takes the first door at this port.
fn take_at(doors: &mut Vec<(u16, MemDoor)>, port: u16) -> MemDoor
    requires there { 0 < count_at port doors.old.items }
    requires made { AreNewDoors doors.old.items }
    ensures first { doors_at port doors.old.items ≡ result ∷ doors_at port doors.new.items }
    ensures gone { AreGone port 1 doors.old.items doors.new.items }
    ensures len { vec_len doors.new + 1 ≡ vec_len doors.old }
    ensures new { IsNewDoor result }
    ensures made { AreNewDoors doors.new.items }
{
    let place = place_at(doors, port).unwrap_or(0);
    doors.remove(place).1
}

// Takes the first `count` doors at this port.
fn take_all_at(
    alloc: Global,
    doors: &mut Vec<(u16, MemDoor)>,
    port: u16,
    count: usize,
) -> Result<Vec<MemDoor>, AllocError>
    requires there { count ≤ count_at port doors.old.items }
    requires made { AreNewDoors doors.old.items }
    ensures count { IfOk result (λ given. vec_len given ≡ count) }
    ensures given { IfOk result (λ given. given.items ≡ first_at port count doors.old.items) }
    ensures gone { OnOk result (AreGone port count doors.old.items doors.new.items) }
    ensures len { OnOk result (vec_len doors.new + count ≡ vec_len doors.old) }
    ensures new { IfOk result (λ given. AreGivenDoors port given.items) }
    ensures made { AreNewDoors doors.new.items }
    ensures kept { OnErr result (doors.new ≡ doors.old) }
{
    let mut given = Vec::with_capacity(alloc, count)?;
    while given.len() < count {
        let mut door = take_at(doors, port);
        door.open_at(port);
        given.push(door).unwrap();
    }
    Ok(given)
}

// Whether one of these doors has failed.
fn has_failed(doors: &[MemDoor]) -> bool
    ensures { result ≡ rose_once (λ door. door.faults) doors.now }
{
    doors.iter().any(|door| door.fault_count() != 0)
}

impl House for MemHouse {
    type Conn = MemLink;

    type Door = MemDoor;

    ghost at = { house_told };

    fn doors(&mut self, alloc: Global, port: u16, count: u32) -> Result<Vec<MemDoor>, HouseError>
        requires once { length self.old.asked ≤ 1 }
        requires port { IsNewPort self.old.asked port }
        ensures count { IfOk result (λ doors. vec_len doors ≡ count) }
        ensures given { IfOk result (λ doors. doors.items ≡ first_at port count self.old.doors) }
        ensures new { IfOk result (λ doors. AreGivenDoors port doors.items) }
        ensures gone { OnOk result (AreGone port count self.old.doors self.new.doors) }

        ensures fails { IsErrOf result HouseError.Failed
            ↔ IsTrue (doors_fail self.old port count) }
        ensures ok { OnOk result (self.new ≡ with_doors self.old port count self.new.doors) }
        ensures failed { IsErrOf result HouseError.Failed
            → self.new ≡ with_doors_fault self.old port count }
        ensures no_memory { IsErrOf result HouseError.NoMemory
            → self.new ≡ with_asked self.old port count }
        ensures later { self.old.door_faults ≤ self.new.door_faults }
    {
        let refused = self.refuses(port, count as usize);
        self.calls = self.calls.saturating_add(1);
        self.asked.push(DoorsAsked { port, count });
        if refused {
            count_fault(&mut self.door_faults);
            return Err(HouseError::Failed);
        }
        let given = take_all_at(alloc, &mut self.doors, port, count as usize)?;
        self.doors_given += count as usize;
        Ok(given)
    }

    fn call(&mut self, port: u16) -> Result<MemLink, Failed>
        requires { self.old.called ≡ None }
        ensures fails { IsErr result ↔ IsTrue (call_fails self.old port) }
        ensures given { IfOk result (λ link. self.old.link ≡ Some (port, link)) }
        ensures new { IfOk result IsNewLink }
        ensures ok { OnOk result (self.new ≡ with_call self.old port) }
        ensures failed { OnErr result (self.new ≡ with_call_fault self.old port) }
        ensures later { self.old.read_faults ≤ self.new.read_faults }
    {
        self.calls = self.calls.saturating_add(1);
        self.called = Some(port);
        if is_planned(&self.fails, self.calls) {
            count_fault(&mut self.read_faults);
            return Err(Failed);
        }
        match self.link.take() {
            Some((at, link)) if at == port => {
                self.links_given += 1;
                Ok(link)
            }
            other => {
                self.link = other;
                count_fault(&mut self.read_faults);
                Err(Failed)
            }
        }
    }

    fn shut(&mut self, doors: Vec<MemDoor>)
        requires { HasLentDoors (Some self.old.lent) (vec_len doors) }
        ensures { self.new ≡ with_shut self.old doors.items }
    {
        if has_failed(&doors) {
            count_fault(&mut self.door_faults);
        }
        let mut doors = doors;
        self.doors_back.append(&mut doors).unwrap();
    }

    fn hang_up(&mut self, link: MemLink)
        requires { HasLentLink (Some self.old.lent) }
        ensures { self.new ≡ with_hung_up self.old link }
    {
        if link.read_fault_count() != 0 {
            count_fault(&mut self.read_faults);
        }
        if link.write_fault_count() != 0 {
            count_fault(&mut self.write_faults);
        }
        self.links_back.push((self.called, link)).unwrap();
    }
}
