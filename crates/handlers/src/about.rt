// Requests about a domain that change nothing: GET_DOMAIN_PATH and IS_DOMAIN_INTRODUCED.
ghost use Rattle.std.specs.Prelude.{Ok, ◌≡◌, ◌++◌, length};
ghost use Rattle.rules.specs.Size.{reply_size, domains_size};
ghost use Rattle.rules.specs.Octets.{nul};
ghost use Rattle.rules.specs.Path.{base, path_text};
ghost use Rattle.rules.specs.Answer.{done};
ghost use Rattle.rules.specs.Layout.{domains_of};
ghost use Rattle.rules.specs.World.{World, introduced_text};
ghost use Rattle.replies.specs.Framed.{Told};

use domains::places::known;
use octets::parts::copy;
use octets::sizes::HEADER_SIZE;
use octets::written::put_decimal;

// Where a domain's id stands in its base's path.
const ID_AT: usize = 14;

// Puts the path of a domain's base and a nul behind the header, and gives their length.
pub fn domain_path(domain: u32, reply: &mut [u8]) -> usize
    requires { length reply.old ≡ reply_size }
    ensures { Told (done (path_text (base domain) ++ nul)) (Ok result) reply.old reply.new }
{
    copy(reply, HEADER_SIZE, b"/local/domain/");
    let at = put_decimal(reply, HEADER_SIZE + ID_AT, domain as u64);
    reply[at] = 0;
    at + 1 - HEADER_SIZE
}

// Puts `T` or `F`, for whether a domain is introduced, and a nul behind the header, and gives their length; `T` for 0.
pub fn is_introduced(domains: &[u8], domain: u32, reply: &mut [u8]) -> usize
    requires { (length domains.now ≡ domains_size) × (length reply.old ≡ reply_size) }
    ensures { (w : World) → w.domains ≡ domains_of domains.now → Told (done (introduced_text w domain ++ nul)) (Ok result) reply.old
        reply.new }
{
    if known(domains, domain) {
        copy(reply, HEADER_SIZE, b"T\0");
    } else {
        copy(reply, HEADER_SIZE, b"F\0");
    }
    2
}
