// Who asks: a connection, and the domain that it speaks for.
#![tactic(auto)]

ghost use Rattle.std.specs.Prelude.{◌≡◌};
ghost use Rattle.rules.specs.Domain.{domain_of, is_control};
ghost use Rattle.senders.specs.Speaks.{Speaks};

// Rights and owners go by the domain; watches and transactions by the connection.
#[derive(Clone, Copy, Debug, PartialEq, Eq)]
pub struct Sender {
    pub connection: u32,
    pub domain: u32,
}

// The domain that a connection speaks for.
pub fn domain_of(connection: u32) -> u32
    ensures { result ≡ domain_of connection }
{
    connection
}

// Whether a domain is the control domain, which may do everything.
pub fn is_control(domain: u32) -> bool
    ensures { result ≡ is_control domain }
{
    domain == 0
}

impl Sender {
    // A connection, as the sender of a request.
    pub fn of(connection: u32) -> Sender
        ensures { (result.connection ≡ connection) × Speaks result }
    {
        Sender {
            connection,
            domain: domain_of(connection),
        }
    }
}
