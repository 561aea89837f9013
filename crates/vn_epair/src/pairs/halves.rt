//! What a pair's halves are: where they stand, their addresses, and whether they are up.
ghost use Rattle.std.specs.Prelude.{◌≡◌, ◌≤◌, Some, IsSome, length};
ghost use Rattle.vn_types.specs.PerStack.{ChangesOnly};
ghost use Rattle.vn_epair.specs.declared.pair_row.TheConstants.{UNIT_MAX};
ghost use Rattle.vn_epair.specs.Pairs.{half_of, of, pair_of, with_end};

use crate::pair_row::PairRow;
use crate::pairs::Pairs;
use vn_types::{HalfId, Mac, Sid};

impl Pairs {
    /// The stack where a half stands.
    pub fn stands(&self, half: HalfId) -> Sid
        requires { IsSome (of self.now half.pair) }
        ensures { result.0 ≡ (half_of self.now half).at }
    {
        self.row(half.pair).half(half.side).place()
    }

    /// Puts a half into another stack. Its queues stay.
    pub fn set_stands(&mut self, half: HalfId, sid: Sid)
        requires { IsSome (of self.old half.pair) }
        ensures stands { of self.new half.pair ≡ Some (with_end half.side
            (record (half_of self.old half) { at = sid.0 }) (pair_of self.old half.pair)) }
        ensures others { ChangesOnly half.pair (of self.old) (of self.new) }
        ensures numbers { length self.new ≡ length self.old }
    {
        let Some(row) = &mut self.rows[half.pair as usize] else {
            unreachable!()
        };
        row.set_place(half.side, sid);
    }

    /// The home of a pair.
    pub fn home(&self, pair: u32) -> Sid
        requires { IsSome (of self.now pair) }
        ensures { result.0 ≡ (pair_of self.now pair).home }
    {
        self.row(pair).home()
    }

    /// The unit of a pair.
    pub fn unit(&self, pair: u32) -> u32
        requires { IsSome (of self.now pair) }
        ensures unit { result ≡ (pair_of self.now pair).unit }
        ensures most { result ≤ UNIT_MAX }
    {
        self.row(pair).unit()
    }

    /// The hardware address of a half.
    pub fn mac(&self, half: HalfId) -> Mac
        requires { IsSome (of self.now half.pair) }
        ensures { result ≡ (half_of self.now half).mac }
    {
        self.row(half.pair).half(half.side).mac()
    }

    /// Gives a half another hardware address.
    pub fn set_mac(&mut self, half: HalfId, mac: Mac)
        requires { IsSome (of self.old half.pair) }
        ensures mac { of self.new half.pair ≡ Some (with_end half.side
            (record (half_of self.old half) { mac = mac }) (pair_of self.old half.pair)) }
        ensures others { ChangesOnly half.pair (of self.old) (of self.new) }
        ensures numbers { length self.new ≡ length self.old }
    {
        let Some(row) = &mut self.rows[half.pair as usize] else {
            unreachable!()
        };
        row.set_mac(half.side, mac);
    }

    /// Whether a half is up.
    pub fn is_up(&self, half: HalfId) -> bool
        requires { IsSome (of self.now half.pair) }
        ensures { result ≡ (half_of self.now half).up }
    {
        self.row(half.pair).half(half.side).is_up()
    }

    /// Sets a half up or down. Its queues stay.
    pub fn set_up(&mut self, half: HalfId, up: bool)
        requires { IsSome (of self.old half.pair) }
        ensures up { of self.new half.pair ≡ Some (with_end half.side
            (record (half_of self.old half) { up = up }) (pair_of self.old half.pair)) }
        ensures others { ChangesOnly half.pair (of self.old) (of self.new) }
        ensures numbers { length self.new ≡ length self.old }
    {
        let Some(row) = &mut self.rows[half.pair as usize] else {
            unreachable!()
        };
        row.set_up(half.side, up);
    }

    fn row(&self, pair: u32) -> &PairRow
        requires { IsSome (of self.now pair) }
        ensures row { result.now ≡ pair_of self.now pair }
        ensures unit { result.now.unit ≤ UNIT_MAX }
    {
        self.rows[pair as usize].as_ref().unwrap()
    }
}
