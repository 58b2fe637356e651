//! Why a server did not handle an event.

ghost use Rattle.std.specs.Prelude.{◌≡◌};
ghost use Rattle.tftp_server.specs.Fault.{by_end, fault_number};

use tftp_ends::EndFault;
use thiserror::Error;

/// Why an event was not handled. Nothing has changed.
#[derive(Clone, Copy, Debug, PartialEq, Eq, Error)]
pub enum ServerFault {
    /// A transfer with this identifier is held. This is tested before all else.
    #[error("the transfer identifier is in use")]
    TidInUse = 1,
    /// No open transfer has this identifier.
    #[error("no open transfer has this identifier")]
    NoSuchTid = 2,
    /// Out of memory.
    #[error("out of memory")]
    Memory = 3,
}

impl ServerFault {
    /// The number of the fault, 1 to 3.
    pub fn number(self) -> u8
        ensures { result ≡ fault_number self }
    {
        self as u8
    }
}

impl From<EndFault> for ServerFault {
    ghost use Rattle.std.specs.Prelude.{◌≡◌};
    ghost use Rattle.tftp_server.specs.Fault.{of_end};

    ghost from_gives = { λ fault server. server ≡ of_end fault };

    fn from(fault: EndFault) -> ServerFault {
        match fault {
            EndFault::Closed => ServerFault::NoSuchTid,
            EndFault::Memory => ServerFault::Memory,
        }
    }
}

/// What a server returns for what an end returned.
pub(crate) fn by_end<T>(returned: Result<T, EndFault>) -> Result<T, ServerFault>
    ensures { result ≡ by_end returned }
{
    match returned {
        Ok(done) => Ok(done),
        Err(fault) => Err(ServerFault::from(fault)),
    }
}
