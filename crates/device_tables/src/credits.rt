// What the device counts of the channels of a host.
ghost use Rattle.std.specs.Prelude.{◌≡◌, ◌<◌, nat_lt};
ghost use Rattle.device_record.specs.CreditChanges.{credit_took, one_earned, one_held, one_returned, one_spent};
ghost use Rattle.device_record.specs.Record.{held_on, left_on};
ghost use Rattle.device_record.specs.Opened.{full_credits};
ghost use Rattle.device_tables.specs.Crediting.{HasMore, MayGiveBack, MaySpend};

use cxl_message::{Channel, Message};
use std::marker::Model;

/// How many messages of Req, RwD and BIRsp of a host the device holds, buffered or with a credit still owed, and how
/// many credits are left of NDR, DRS and BISnp to it; each at most the setup's credits.
#[derive(Clone, Copy)]
pub struct HostCredits {
    req_held: u8,
    rwd_held: u8,
    rsp_held: u8,
    ndr_left: u8,
    drs_left: u8,
    snp_left: u8,
}

impl Model for HostCredits {
    ghost use Rattle.device_record.specs.Record.{CreditRecord};

    ghost Value = { CreditRecord };

    ghost view = { λ c. record { req_held = c.req_held; rwd_held = c.rwd_held; rsp_held = c.rsp_held; ndr_left = c.ndr_left; drs_left = c.drs_left; snp_left = c.snp_left } };

    ghost inverse = { λ c. record { req_held = c.req_held; rwd_held = c.rwd_held; rsp_held = c.rsp_held; ndr_left = c.ndr_left; drs_left = c.drs_left; snp_left = c.snp_left } };
}

impl HostCredits {
    /// Nothing is held, and all credits are left.
    pub fn full(credits: u8) -> HostCredits
        ensures { result ≡ full_credits credits }
    {
        HostCredits {
            req_held: 0,
            rwd_held: 0,
            rsp_held: 0,
            ndr_left: credits,
            drs_left: credits,
            snp_left: credits,
        }
    }

    /// How many messages of a channel from the host are held.
    pub fn held(&self, channel: Channel) -> u8
        ensures { result ≡ held_on channel self.now }
    {
        match channel {
            Channel::Req => self.req_held,
            Channel::Rwd => self.rwd_held,
            Channel::BiRsp => self.rsp_held,
            Channel::Ndr => 0,
            Channel::Drs => 0,
            Channel::BiSnp => 0,
            Channel::CreditUp => 0,
            Channel::CreditDown => 0,
        }
    }

    /// How many credits of a channel to the host are left.
    pub fn left(&self, channel: Channel) -> u8
        ensures { result ≡ left_on channel self.now }
    {
        match channel {
            Channel::Ndr => self.ndr_left,
            Channel::Drs => self.drs_left,
            Channel::BiSnp => self.snp_left,
            Channel::Req => 0,
            Channel::Rwd => 0,
            Channel::BiRsp => 0,
            Channel::CreditUp => 0,
            Channel::CreditDown => 0,
        }
    }

    /// A message of the host was taken. No number is at its end.
    pub fn take(&mut self, message: &Message)
        requires { HasMore self.old }
        ensures { self.new ≡ credit_took message.now self.old }
    {
        match message {
            Message::Req { .. } => self.req_held += 1,
            Message::MemWr { .. } => self.rwd_held += 1,
            Message::BiConflict { .. } => self.rwd_held += 1,
            Message::BiRsp { .. } => self.rsp_held += 1,
            Message::Ndr { .. } => {}
            Message::MemData { .. } => {}
            Message::BiSnp { .. } => {}
            Message::Credit { channel } => self.earn(*channel),
        }
    }

    /// A Credit for a channel was taken.
    fn earn(&mut self, channel: Channel)
        requires { HasMore self.old }
        ensures { self.new ≡ one_earned channel self.old }
    {
        match channel {
            Channel::Ndr => self.ndr_left += 1,
            Channel::Drs => self.drs_left += 1,
            Channel::BiSnp => self.snp_left += 1,
            Channel::Req => {}
            Channel::Rwd => {}
            Channel::BiRsp => {}
            Channel::CreditUp => {}
            Channel::CreditDown => {}
        }
    }

    /// A message was sent to the host on NDR, DRS or BISnp, of which a credit is left.
    pub fn spend(&mut self, channel: Channel)
        requires { MaySpend channel self.old }
        ensures { self.new ≡ one_spent channel self.old }
    {
        match channel {
            Channel::Ndr => self.ndr_left -= 1,
            Channel::Drs => self.drs_left -= 1,
            Channel::BiSnp => self.snp_left -= 1,
            Channel::Req => unreachable!("it goes to the device"),
            Channel::Rwd => unreachable!("it goes to the device"),
            Channel::BiRsp => unreachable!("it goes to the device"),
            Channel::CreditUp => unreachable!("a Credit takes no credit"),
            Channel::CreditDown => unreachable!("a Credit takes no credit"),
        }
    }

    /// A Credit for a channel was sent to the host. A message of it is held.
    pub fn give_back(&mut self, channel: Channel)
        requires { MayGiveBack channel self.old }
        ensures { self.new ≡ one_returned channel self.old }
    {
        match channel {
            Channel::Req => self.req_held -= 1,
            Channel::Rwd => self.rwd_held -= 1,
            Channel::BiRsp => self.rsp_held -= 1,
            Channel::Ndr => {}
            Channel::Drs => {}
            Channel::BiSnp => {}
            Channel::CreditUp => {}
            Channel::CreditDown => {}
        }
    }
}
