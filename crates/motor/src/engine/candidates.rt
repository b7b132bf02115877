// The hosts that a request goes to, one after the other.
ghost use Rattle.std.specs.Prelude.{◌≡◌};
ghost use Rattle.motor.specs.engine.Hosts.{host_candidates, host_at, first_host, next_host};

// The host candidates. A four-place array and a count, and no list: host_candidates promises the places past the count, 0.
#[derive(Clone, Copy)]
pub struct Candidates {
    pub hosts: [u16; 4],
    pub count: u8,
}

// Whom a request goes to: the candidates in turn; or once, to one named host or to the motor's own.
#[derive(Clone, Copy)]
pub enum Hosts {
    Candidates,
    Named(u16),
    Own,
}

// The motor's own host, then FD, FF, FE, with adjacent equals dropped.
#[tactic(auto, unfolding(crate::specs::engine::Hosts::host_candidates))]
pub fn host_candidates(own: u16) -> Candidates
    ensures { result ≡ host_candidates own }
{
    if own == 0xFD {
        return Candidates {
            hosts: [0xFD, 0xFF, 0xFE, 0],
            count: 3,
        };
    }
    Candidates {
        hosts: [own, 0xFD, 0xFF, 0xFE],
        count: 4,
    }
}

// The host of the first attempt.
pub(super) fn first_host(own: u16, hosts: Hosts) -> u16
    ensures { result ≡ first_host own hosts }
{
    match hosts {
        Hosts::Candidates | Hosts::Own => own,
        Hosts::Named(host) => host,
    }
}

// The candidate at a place, with the place of the next.
#[tactic(auto, unfolding(crate::specs::engine::Hosts::host_candidates))]
fn host_at(own: u16, place: u8) -> Option<(u16, u8)>
    ensures { result ≡ host_at (host_candidates own) place }
{
    let Candidates { hosts, count } = host_candidates(own);
    if place < count {
        return Some((hosts[place as usize], place + 1));
    }
    None
}

// The host of a further attempt, with the place of the next.
pub(super) fn next_host(own: u16, hosts: Hosts, place: u8) -> Option<(u16, u8)>
    ensures { result ≡ next_host own hosts place }
{
    match hosts {
        Hosts::Candidates => host_at(own, place),
        Hosts::Named(_) | Hosts::Own => None,
    }
}
