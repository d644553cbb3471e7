//! What `--help` says besides the usage and the options: what is answered and an example, and of a program the exit statuses. A
//! page is one screen, of at most 24 lines of 80 columns.

/// The texts of one page.
#[derive(Clone, Copy)]
pub struct HelpText {
    /// What is answered, in one line.
    pub about: &'static str,
    /// The text below the options.
    pub more: &'static str,
}

/// `mdnsmerge --help`.
pub const PROGRAM: HelpText = HelpText {
    about: "Say which Multicast DNS records and services were live, from captures of a link",
    more: "\
Captures by several listeners that share one clock count as one:
    mdnsmerge instances west.pcap east.pcap
`mdnsmerge COMMAND --help` says more of each command. To record:
    tcpdump -i eth0 -U -w a.pcap udp port 5353

Exit: 0 printed; 1 printed, but a file is damaged; 2 refused (run mdnswhy files)",
};

/// `mdnsmerge records --help`.
pub const RECORDS: HelpText = HelpText {
    about: "The records that were live, a line for each",
    more: "\
Live as of the newest hearing, or of --at, which may not be earlier. A line
says when a record was heard, and until when it lives, in seconds since 1970:
    mdnsmerge records --at 2026-11-22T07:28:20Z west.pcap east.pcap
    elm.local A 198.51.100.22 ttl 120 heard 1795332403.397617000 until ...",
};

/// `mdnsmerge types --help`.
pub const TYPES: HelpText = HelpText {
    about: "The service types that were live, a line for each",
    more: "\
Live as of the newest hearing, or of --at, which may not be earlier. Each line
is a type that hosts listed for those who browse:
    mdnsmerge types west.pcap east.pcap
    _ssh._tcp.local",
};

/// `mdnsmerge instances --help`.
pub const INSTANCES: HelpText = HelpText {
    about: "The service instances that were live, with their servers and texts",
    more: "\
Live as of the newest hearing, or of --at, which may not be earlier:
    mdnsmerge instances west.pcap east.pcap
    Elm\\032Shell._ssh._tcp.local
      server elm.local 22 priority 0 weight 0",
};

/// `mdnsmerge hosts --help`.
pub const HOSTS: HelpText = HelpText {
    about: "The hosts that were live, with their addresses",
    more: "\
Live as of the newest hearing, or of --at, which may not be earlier. A line is
HOST ADDRESS...; --pretty and --json also list the instances on each host:
    mdnsmerge hosts west.pcap east.pcap
    elm.local 198.51.100.22 2001:0db8:0077:0000:0000:0000:0000:0016 ...",
};

/// `mdnsmerge lives --help`.
pub const LIVES: HelpText = HelpText {
    about: "When each record was live, and why it ended, a line for each life",
    more: "\
A life ended by `goodbye`, `flushed` or `expired`, or is `live` past the end.",
};

/// `mdnsmerge changes --help`.
pub const CHANGES: HelpText = HelpText {
    about: "Which addresses and services changed, and when",
    more: "\
All `lives` of a name and type if a record came, or came back, after another:
    mdnsmerge changes --pretty --since 2026-11-22T07:00Z west.pcap east.pcap",
};

/// `mdnsmerge page --help`.
pub const HTML_PAGE: HelpText = HelpText {
    about: "One HTML file for people: when each instance was live, as a picture",
    more: "\
A picture and words say when each service instance was live, and how that ended.
The page also has what was live at the end, as `lives` has it, and a lane and a
row of Captures for each file or --listener. It is one file for any browser:
    mdnsmerge page west.pcap east.pcap > ticket.html",
};

/// `mdnsmerge check --help`.
pub const CHECK: HelpText = HelpText {
    about: "What was counted in each file, and how its reading ended",
    more: "\
Of the packets, those skipped carry no Multicast DNS response, those refused a
damaged one. A file that ended before its packets did isn't `whole`:
    mdnsmerge check east.pcap
    east.pcap: packets 356 skipped 145 refused 0 messages 211 hearings 998 whole",
};

/// `mdnswhy --help`.
pub const WHY: HelpText = HelpText {
    about: "Explain what captures tell of Multicast DNS records, and what they leave out",
    more: "\
Captures by several listeners, sorted, are the history of a name:
    mdnswhy hearings --pretty --about elm.local west.pcap east.pcap | sort
`mdnswhy COMMAND --help` says more of each command. To record:
    tcpdump -i eth0 -U -w a.pcap udp port 5353

Exit: 0 printed; 1 printed, but a file is damaged; 2 refused (run mdnswhy files)",
};

/// `mdnswhy hearings --help`.
pub const HEARINGS: HelpText = HelpText {
    about: "Each hearing of a record, a line for each, file after file",
    more: "\
Each line is MOMENT FILE SOURCE OWNER TYPE WORDS ttl TTL, with `flush` after it
where the cache-flush bit is set. SOURCE sent it; a TTL of 0 is a goodbye:
    mdnswhy hearings --pretty --about elm west.pcap east.pcap | sort | tail -4
    2026-11-22T07:26:43.397Z  ttl 120 flush   198.51.100.22    west.pcap  A ...",
};

/// `mdnswhy packets --help`.
pub const PACKETS: HelpText = HelpText {
    about: "Each packet that told nothing, and why, a line for each",
    more: "\
Each line is MOMENT FILE OFFSET, and `skipped CAUSE` where the packet carries no
Multicast DNS response, or `refused FAULT at N` where it carries a damaged one.
OFFSET is that of the packet in the file, N that of the fault in the message.
`man mdnswhy` says what to do about each cause. All of them, counted:
    mdnswhy packets west.pcap east.pcap | cut -d' ' -f4- | sort | uniq -c
    ...
        315 skipped query",
};

/// `mdnswhy spans --help`.
pub const SPANS: HelpText = HelpText {
    about: "From when to when each file has packets and hearings",
    more: "\
Each line is FILE packets FIRST LAST hearings FIRST LAST snap LENGTH. FIRST and
LAST are the earliest and the latest moment, in seconds since 1970, or `- -` if
there is none. The listener captured at most LENGTH bytes of each packet.
    mdnswhy spans east.pcap
    east.pcap packets 1795332394.895131000 1795332498.398110000 hearings ...",
};

/// `mdnswhy files --help`.
pub const FILES: HelpText = HelpText {
    about: "What each file is, what it lost, and what to do about it",
    more: "\
Each line is FILE pcap ENDING packets N FIRST LAST hearings N, with the earliest
and the latest moment of the packets, in seconds since 1970. Below it a line for
each cause by which packets were lost, with the cure, and one where a capture
heard nothing: then the status is 1. A file that can't be used has a line with
what it is and the cure, and the files after it follow:
    mdnswhy files *.pcap
    west.pcap unusable gzip: unpack it with zcat FILE > NEW",
};

/// `mdnswhy listeners --help`.
pub const LISTENERS: HelpText = HelpText {
    about: "Whether clocks and links agree, and which listener missed what",
    more: "\
A line for each listener, then one for each two, with how far the second clock
is ahead, in seconds, then one for each sender and listener. A message is alone
if no other listener has it, and missed if one had it while this one listened:
    mdnswhy listeners --listener west --listener east west*.pcap east*.pcap
    west heard 252 alone 29 missed 7 from 1795332385.468933000 until ...
    west east common 93 ahead -0.000028000 from -0.000051000 to ...
    198.51.100.12 east heard 9 missed 1 from ... until ... birch.local",
};
