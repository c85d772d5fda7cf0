//! The command that serves a hill.

use crate::arguments::Argument::{Flag, Number, Port, Ranged, Text, Texts};
use crate::building::{Row, Takes};
use crate::options::{HILL_FILE, STEPS};

/// `serve`, for many peers.
pub(crate) const SERVE: Row = Row {
    name: "serve",
    about: "Serves sessions on a hill over connections, those of many peers at once",
    arguments: &[
        HILL_FILE,
        Port,
        Ranged(
            "peers",
            1,
            1024,
            "Most peers served at once, 1 to 1024; with 1 it is one after the other [default: 64]",
        ),
        Ranged(
            "peers-per-address",
            1,
            1024,
            "Most peers of one address served at once, and as many browsers, 1 to 1024; further ones are refused [default: no limit]",
        ),
        STEPS,
        Text(
            "listen",
            "ADDRESS",
            "Address to listen at, IPv4 or IPv6; who reaches it can submit [default: 127.0.0.1]",
        ),
        Number(
            "connections",
            "Connections to serve before the program ends, 0 to 4294967295 [default: no limit]",
        ),
        Ranged(
            "http",
            0,
            65535,
            "Port at which browsers see the hill, 0 to 65535; at 0 the system chooses one",
        ),
        Texts(
            "host",
            "NAME",
            "Name of this machine that requests of browsers may be for, besides its addresses and localhost; may be given more than once",
        ),
        Flag(
            "replays",
            "Show browsers replays of rounds too, which publish both warriors whole",
        ),
        Text(
            "title",
            "TEXT",
            "Title of the hill's page [default: King of the Hill]",
        ),
        Text(
            "peers-at",
            "ADDRESS",
            "Where peers submit by the hill's page, HOST:PORT [default: the first --host, or where the service listens]",
        ),
        Flag("quiet", "Write no line for each connection"),
        Text(
            "log-format",
            "FORM",
            "Format of the lines for connections, text or json [default: text]",
        ),
        Flag(
            "create",
            "Create the hill first if FILE is missing, under the settings below, and draw its seed unless --seed is given; a hill that is there keeps its own",
        ),
    ],
    takes: Takes::Settings,
};
