//! Opens the addresses of a server, and tells where it listens.
//!
//! `clients` opens them once all services are made, and then serves. docs/OPERATING tells what is printed, and the
//! notes; scripts/check-stories, check-limits and check-sockets expect them: change them together.

use crate::pages::{LIMITS, PagesEnd};
use log::{Log, error, warn};
use mw_config::Listening;
use mw_connections::{
    BriefListener, ClientListener, Closer, Lease, Network, OpensSockets, TimeLimits, listen_at,
    listen_briefly, port_of,
};
use mw_metrics::ServerCounters;
use mw_notes::{note_place, note_why};
use mw_upkeep::{Address, Console, ServeFault};
use std::io::{self, ErrorKind};

/// The addresses of a server, at each of which it listens.
#[derive(Drop)]
pub(crate) struct Doors<'e, N, Q> {
    pub(crate) clients: ClientDoors<'e, N, Q>,
    /// The address of the pages.
    pub(crate) pages: Option<BriefListener<'e, N, Q>>,
    pub(crate) pages_end: PagesEnd,
}

/// What the addresses of a server have in common.
#[derive(Drop)]
pub(crate) struct DoorTerms<'e, N, Q> {
    /// Who may listen, and what the clients are promised.
    pub(crate) network: &'e Network<'e, N, Q>,
    pub(crate) listening: &'e Listening,
    /// They count the bytes of the clients, if there are pages that tell them.
    pub(crate) counters: &'e ServerCounters,
    /// All replies and pages need it. None: they need none.
    pub(crate) lease: Option<&'e Lease>,
}

/// The address for clients, and the one for the administrator if there is one.
#[derive(Drop)]
pub(crate) struct ClientDoors<'e, N, Q> {
    pub(crate) all: ClientListener<'e, N, Q>,
    /// The port of the address for clients, if it has one.
    port: Option<u16>,
    pub(crate) admin: Option<AdminDoor<'e, N, Q>>,
}

/// The address for the administrator.
#[derive(Drop)]
pub(crate) struct AdminDoor<'e, N, Q> {
    pub(crate) address: &'e str,
    pub(crate) listener: ClientListener<'e, N, Q>,
    port: Option<u16>,
    /// Ends the wait for a client there.
    pub(crate) closer: Closer,
}

/// The address of the pages.
#[derive(Drop)]
struct PagesDoor<'e, N, Q> {
    listener: BriefListener<'e, N, Q>,
    port: Option<u16>,
    /// Ends the pages.
    end: PagesEnd,
}

/// Listens at all addresses, and tells where: first at that of the pages, and once all are open the administrator's
/// place, then `ready`. A note tells of an address at which nobody can listen, and of one at which clients of other machines
/// may come.
pub(crate) fn open_doors<'e, N: OpensSockets, Q, C: Console, L: Log>(
    terms: &DoorTerms<'e, N, Q>,
    console: &mut C,
    notes: &L,
) -> Result<Doors<'e, N, Q>, ServeFault> {
    let (pages, pages_end) = open_pages(terms, console, notes)?;
    match open_client_doors(terms, console, notes) {
        Ok(clients) => Ok(Doors {
            clients,
            pages,
            pages_end,
        }),
        Err(fault) => Err(fault),
    }
}

/// Listens at the addresses for clients and for the administrator, and tells where.
fn open_client_doors<'e, N: OpensSockets, Q, C: Console, L: Log>(
    terms: &DoorTerms<'e, N, Q>,
    console: &mut C,
    notes: &L,
) -> Result<ClientDoors<'e, N, Q>, ServeFault> {
    let (all, port) = open_clients(terms, terms.listening.address.as_str(), notes)?;
    let admin = open_admin(terms, notes)?;
    let clients = ClientDoors { all, port, admin };
    match tell_doors(&clients, terms.listening, console) {
        Ok(()) => Ok(clients),
        Err(error) => Err(cannot_write(notes, &error)),
    }
}

/// Tells where clients find the server, the administrator first.
fn tell_doors<N, Q, C: Console>(
    doors: &ClientDoors<'_, N, Q>,
    listening: &Listening,
    console: &mut C,
) -> io::Result<()> {
    if let Some(door) = &doors.admin {
        console.tell(Address::Admin, door.port, door.address)?;
    }
    console.tell(Address::Clients, doors.port, listening.address.as_str())
}

/// Writes that nobody can listen at this address, and what the system told, or which form an address has.
fn cannot_listen<L: Log>(notes: &L, address: &str, error: &io::Error) -> ServeFault {
    error!(notes; "mwserve: cannot listen");
    if error.kind() == ErrorKind::InvalidInput && error.raw_os_error().is_none() {
        note_why(
            notes,
            address,
            "an address is HOST:PORT, or unix: and a path of at most 107 bytes",
            &"",
        );
    } else {
        note_why(notes, address, "", error);
    }
    ServeFault::Failed
}

/// Writes that the places can't be told, and what the system told.
fn cannot_write<L: Log>(notes: &L, error: &io::Error) -> ServeFault {
    error!(notes; "mwserve: cannot write");
    note_why(notes, "standard output", "", error);
    ServeFault::Failed
}

/// Writes a note that clients of other machines may come to this address, if they may and the command line doesn't say that
/// this is meant.
fn note_open<L: Log>(notes: &L, listening: &Listening, address: &str, is_open: io::Result<bool>) {
    if !listening.open && is_open.unwrap_or(false) {
        warn!(notes; "mwserve: other machines may connect");
        note_place(notes, address);
    }
}

/// Listens at this address for clients. Gives also its port, if it has one.
fn open_clients<'e, N: OpensSockets, Q, L: Log>(
    terms: &DoorTerms<'e, N, Q>,
    address: &str,
    notes: &L,
) -> Result<(ClientListener<'e, N, Q>, Option<u16>), ServeFault> {
    match clients_at(terms, address) {
        Ok((clients, port)) => {
            note_open(notes, terms.listening, address, clients.is_open());
            Ok((clients, port))
        }
        Err(error) => Err(cannot_listen(notes, address, &error)),
    }
}

/// Listens at an address for clients, whose bytes the counters count if there are pages that tell them.
fn clients_at<'e, N: OpensSockets, Q>(
    terms: &DoorTerms<'e, N, Q>,
    address: &str,
) -> io::Result<(ClientListener<'e, N, Q>, Option<u16>)> {
    let listening = terms.listening;
    let limits = TimeLimits {
        silence: listening.idle,
        line: listening.line_time,
    };
    let clients = listen_at(terms.network, address, listening.socket_mode, limits)?;
    let port = port_of(&clients)?;
    let clients = clients
        .with_faults(listening.faults)
        .with_lease(terms.lease);
    if listening.http.is_some() {
        Ok((clients.counted_by(terms.counters), port))
    } else {
        Ok((clients, port))
    }
}

/// Listens at the administrator's address, if there is one.
fn open_admin<'e, N: OpensSockets, Q, L: Log>(
    terms: &DoorTerms<'e, N, Q>,
    notes: &L,
) -> Result<Option<AdminDoor<'e, N, Q>>, ServeFault> {
    let listening = terms.listening;
    let Some(address) = &listening.admin else {
        return Ok(None);
    };
    let address = address.as_str();
    let (listener, port) = open_clients(terms, address, notes)?;
    match listener.closer() {
        Ok(closer) => Ok(Some(AdminDoor {
            address,
            listener,
            port,
            closer,
        })),
        Err(error) => Err(cannot_listen(notes, address, &error)),
    }
}

/// Listens at the address of the pages, if there is one, and tells where. Gives also what ends them.
fn open_pages<'e, N: OpensSockets, Q, C: Console, L: Log>(
    terms: &DoorTerms<'e, N, Q>,
    console: &mut C,
    notes: &L,
) -> Result<(Option<BriefListener<'e, N, Q>>, PagesEnd), ServeFault> {
    let listening = terms.listening;
    let Some(address) = &listening.http else {
        return Ok((None, PagesEnd::new(None)));
    };
    let address = address.as_str();
    match pages_at(terms, address) {
        Ok(
            PagesDoor {
                listener,
                port,
                end,
            },
        ) => {
            note_open(notes, listening, address, listener.is_open());
            match console.tell(Address::Pages, port, address) {
                Ok(()) => Ok((Some(listener), end)),
                Err(error) => Err(cannot_write(notes, &error)),
            }
        }
        Err(error) => Err(cannot_listen(notes, address, &error)),
    }
}

/// Listens at an address for clients of the pages.
fn pages_at<'e, N: OpensSockets, Q>(
    terms: &DoorTerms<'e, N, Q>,
    address: &str,
) -> io::Result<PagesDoor<'e, N, Q>> {
    let mode = terms.listening.socket_mode;
    let listener = listen_briefly(terms.network, address, mode, LIMITS)?.with_lease(terms.lease);
    let end = PagesEnd::new(Some(listener.closer()?));
    let port = listener.port()?;
    Ok(PagesDoor {
        listener,
        port,
        end,
    })
}
