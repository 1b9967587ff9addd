// The channels between a host and the device.
ghost use Rattle.std.specs.Prelude.{◌≡◌};

/// The channels of one host. The first six are those of CXL.mem, each flow-controlled by credits
/// (CXL 3.1, chapter 3); that credits come back as messages on two more channels is this project's own.
#[derive(Clone, Copy, PartialEq, Eq, Debug)]
pub enum Channel {
    /// M2S Req: requests without data.
    Req,
    /// M2S RwD: messages with data.
    Rwd,
    /// M2S BIRsp: answers to snoops.
    BiRsp,
    /// S2M NDR: answers without data.
    Ndr,
    /// S2M DRS: answers with data.
    Drs,
    /// S2M BISnp: back-invalidate snoops.
    BiSnp,
    /// Credits for NDR, DRS and BISnp, to the device (own rule).
    CreditUp,
    /// Credits for Req, RwD and BIRsp, to the host (own rule).
    CreditDown,
}

impl Channel {
    ghost use Rattle.cxl_message.specs.Channels.{has_credits as channel_has_credits, goes_to_device as channel_goes_to_device};

    /// Whether messages on the channel need credits: it is one of the first six.
    pub fn has_credits(self) -> bool
        ensures { result ≡ channel_has_credits self }
    {
        match self {
            Channel::CreditUp | Channel::CreditDown => false,
            _ => true,
        }
    }

    /// Whether the channel goes from the host to the device.
    pub fn goes_to_device(self) -> bool
        ensures { result ≡ channel_goes_to_device self }
    {
        match self {
            Channel::Req | Channel::Rwd | Channel::BiRsp | Channel::CreditUp => true,
            _ => false,
        }
    }
}
