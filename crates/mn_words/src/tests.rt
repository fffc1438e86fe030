//! Lines of words, with what comes of each by the rules.
use crate::opt::{Opt, WordsFault};
use crate::order::{FileName, MigrateOrder, Order, RunOrder};
use crate::words::read_words;
use mn_base::Refusal;
use std::alloc::{AllocError, Global};
use std::process::Abort;

/// The words that stand between the spaces of a line, read.
fn read_line(rt: &(impl Abort + AllocGlobal), line: &str) -> Result<Order, Refusal<WordsFault>> {
    let words: Result<Vec<&str>, _> = line.split(' ').collect(rt.alloc());
    let words = words.expect(rt, "memory");
    read_words(rt.alloc(), words.as_slice())
}

/// Each line has this fault.
fn assert_faults(rt: &(impl Abort + AllocGlobal), lines: &str, fault: WordsFault) {
    for line in lines.lines() {
        let found = read_line(rt, line).err();
        assert_eq!(rt; found, Some(Refusal::Fault(fault)), "at {line}");
    }
}

const NO_COMMAND: &str = "\
emulat
Workload --number 7
--trace t
--help
distil --topology t
chain=x
chaîn --trace t --out o --report r 8000000:5000:50:0
Chain --trace t --out o --report r 8000000:5000:50:0
 chain
Red --trace t --out o --report r 1000:0:1:0:0:0:1:0
checks --topology g --trace t --journal j";

const ANOTHER_FORM: &str = "\
chain
chain --help
chain 1000:0:1:0
chain --trace t --out
chain --trace t --out o --report r
chain --out o --report r 1000:0:1:0
chain --trace t --out o --report r --tick-ns 1000:0:1:0
chain --trace t --out o --report r 1000:0:1:0 --loss
chain --trace t --out o --report r 1000:0:1:0 --
chain --trace t --out o --report r 1000:0:1:0 -- x
chain --trace t --out o --report r 1000:0:1:0 --=x
chain --trace t --out o --report r 1000:0:1:0 --cores=17
chain --trace t --out o --report r 1000:0:1:0 --Seed 1
chain --träce t --out o --report r 1000:0:1:0
chain --trace t --trace t --out o --report r 1000:0:1:0
chain --trace t --out o --out=o --report r 1000:0:1:0
chain --trace t --out o --report r --seed x --seed 1 1000:0:1:0
chain --trace t --out o --report r --loss word 0:0:0:0 --tick-ns
distill
distill --topology
distill --topology t 1000:0:1:0
distill --topology t --loss packet
distill --topology=t --mode
distill --mode hop --topology t --mode hop
distill --mode walk:0 --tick-ns 1
assign --topology t --tick-ns 1000
assign --topology t 1000:0:1:0
rehearse --topology g --trace t --out o
rehearse --topology g --trace t --out o --report r 1000:0:1:0
rehearse --topology g --trace t --out o --report r --number 7
rehearse --topology g --directory d --trace t --directory= --out o --report r
emulate --topology g --trace t --out o --report r --order 0
emulate --topology g --trace t --out o --report r --turns=0
emulate --topology g --trace t --out o --report r --mode x --turns 1
workload
workload --number 7 --loss packet
workload --number 7 14
journal
journal --topology g --trace t
journal --topology g --trace t --out o --report r
journal --topology g --trace t --out o --journal j
journal --topology g --trace t --out o --order 0
journal --topology g --trace t --out o 0:0:0
journal --topology g --trace t --out o --cores 0 --cores 0
check --topology g --trace t
check --topology g --trace t --out o
check --topology g --trace t --journal j --out o
check --topology g --trace t --journal j --cluster-report no
check --topology g --trace t --journal j --journal j
check --topology g --trace t --journal
red --trace t --out o --report r
red --trace t --out o 1000:0:1:0:0:0:1:0
red --trace t --out o --report r --loss packet 1000:0:1:0:0:0:1:0
red --trace t --out o --report r --topology g 1000:0:1:0:0:0:1:0
migrate --topology g --trace t --out o --report r
migrate --topology g --trace t --out o 0:0:0
migrate --topology g --trace t --out o --report r --order 0 0:0:0
migrate --topology g --trace t --out o --report r --turns 0 0:0:0
migrate --topology g --trace t --out o --report r --cluster-report no 0:0:0";

/// Each of the first lines mends the first wrong value of the one before it.
const WRONG_VALUES: [(Opt, &str); 11] = [
    (
        Opt::Mode,
        "\
rehearse --topology g --trace t --out o --report r --loss x --turns x --order x --cluster-report x --tick-ns 999 --seed x --cores 0 --mode x
migrate --topology g --trace t --out o --report r 0 --loss x --tick-ns 999 --seed x --cores 0 --mode x
distill --topology t --mode Hop
distill --topology t --mode=
distill --topology t --mode walk
distill --topology t --mode walk:0
distill --topology t --mode walk:4097
distill --topology t --mode walk:1:0
distill --topology t --mode walk:1:
distill --topology t --mode walk:0:1
distill --topology t --mode walk:1:1:1
distill --topology t --mode end:1
distill --tick-ns 1 --topology t --mode hop=end",
    ),
    (
        Opt::Cores,
        "\
rehearse --topology g --trace t --out o --report r --loss x --turns x --order x --cluster-report x --tick-ns 999 --seed x --cores 0
migrate --topology g --trace t --out o --report r 0 --loss x --tick-ns 999 --seed x --cores 0
assign --topology t --cores=17
assign --cores --mode --topology t
workload --number x --packets 0 --cores 0
journal --topology g --trace t --out o --cores 17
check --topology g --trace t --journal j --cores 0",
    ),
    (
        Opt::Seed,
        "\
rehearse --topology g --trace t --out o --report r --loss x --turns x --order x --cluster-report x --tick-ns 999 --seed x
migrate --topology g --trace t --out o --report r 0 --loss x --tick-ns 999 --seed x
chain --trace t --out o --report r 1000:0:1:0 --seed 18446744073709551616
chain --trace t --out o --report r 1000:0:1:0 --seed=
chain --loss=word 0:0:0 --tick-ns 999 --seed 0x1 --trace t --out o --report r
red --trace t --out o --report r 0 --seed -1 --tick-ns 1",
    ),
    (
        Opt::TickNs,
        "\
rehearse --topology g --trace t --out o --report r --loss x --turns x --order x --cluster-report x --tick-ns 999
migrate --topology g --trace t --out o --report r 0 --loss x --tick-ns 999
chain --trace t --out o --report r --tick-ns 10000001 1000:0:1:0
chain --loss=word 0:0:0 --tick-ns=1000=1 --seed 1 --trace t --out o --report r
red --trace t --out o --report r 0 --tick-ns 1",
    ),
    (
        Opt::ClusterReport,
        "rehearse --topology g --trace t --out o --report r --loss x --turns x --order x --cluster-report Yes",
    ),
    (
        Opt::Order,
        "rehearse --topology g --trace t --out o --report r --loss x --turns x --order 18446744073709551616",
    ),
    (
        Opt::Turns,
        "rehearse --topology g --trace t --out o --report r --loss x --turns 1000001",
    ),
    (
        Opt::Number,
        "\
workload --number=
workload --number --packets --packets 0
workload --packets 200001 --cores 16 --number 7.",
    ),
    (
        Opt::Packets,
        "\
workload --number 7 --packets 0
workload --number 7 --packets 200001
workload --packets --number --number 7",
    ),
    (
        Opt::Loss,
        "\
rehearse --topology g --trace t --out o --report r --loss x
migrate --topology g --trace t --out o --report r 0 --loss x
chain --trace t --out o --report r 1000:0:1:0 --loss=Packet
journal --topology g --trace t --out o --loss=
check --topology g --trace t --journal j --loss arrivals",
    ),
    (
        Opt::Move,
        "\
migrate --topology g --trace t --out o --report r 0
migrate --topology g --trace t --out o --report r 0:0
migrate --topology g --trace t --out o --report r 0:0:0:0
migrate --topology g --trace t --out o --report r 18446744073709551616:0:0
migrate --topology g --trace t --out o --report r 0:262144:0
migrate --topology g --trace t --out o --report r 0:0:1
migrate --topology g --trace t --out o --report r --cores 2 1:4:2
migrate --topology g --trace t --out o --report r --cores 16 0:0:16
migrate --topology g --trace t --out o --report r 1:0:0 0:0:0
migrate --topology g --trace t --out o --report r 0:0:0 -1:0:0",
    ),
];

const WRONG_PIPES: &str = "\
chain --trace t --out o --report r 999:0:1:0
chain --trace t --out o --report r 1000000000001:0:1:0
chain --trace t --out o --report r 1000:10000001:1:0
chain --trace t --out o --report r 1000:0:0:0
chain --trace t --out o --report r 1000:0:1001:0
chain --trace t --out o --report r 1000:0:1:1000001
chain --trace t --out o --report r 1000:0:1
chain --trace t --out o --report r 1000:0:1:0:0
chain --trace t --out o --report r +1000:0:1:0
chain --trace t --out o --report r ١٠٠٠:0:1:0
chain --trace t --out o --report r -seed 1 1000:0:1:0
chain --loss=word --trace t --out o 1000:0:1:0 --report r extra
chain --trace t --out o --report r 1000:0:1:0:0:0:1:0
red --trace t --out o --report r 1000:0:1:0
red --trace t --out o --report r 1000:0:1:0:0:0:1
red --trace t --out o --report r 1000:0:1:0:0:0:1:0:0
red --trace t --out o --report r 999:0:1:0:0:0:1:0
red --trace t --out o --report r 1000:0:1:0:17:0:1:0
red --trace t --out o --report r 1000:0:1:0:0:1000:1000:0
red --trace t --out o --report r 1000:0:1:0:0:1:1:0
red --trace t --out o --report r 1000:0:1:0:0:0:1001:0
red --trace t --out o --report r 1000:0:1:0:0:0:1:1000001
red --trace t --out o --report r 1000:0:1:0:0:0:1:0 1000:0:1:0:0:0:0:0";

#[test]
fn what_is_wrong_with_words(rt: HostRuntime) {
    let none = read_words(rt.alloc(), &[]).err();
    assert_eq!(rt; none, Some(Refusal::Fault(WordsFault::Command)));
    assert_faults(&rt, NO_COMMAND, WordsFault::Command);
    assert_faults(&rt, ANOTHER_FORM, WordsFault::Form);
    assert_faults(&rt, WRONG_PIPES, WordsFault::Value(Opt::Pipe));
    for (opt, lines) in WRONG_VALUES {
        assert_faults(&rt, lines, WordsFault::Value(opt));
    }
}

/// A line, and so many times these words after it: whether they are read, or the value of this option is wrong.
fn many_are_read(
    rt: &(impl Abort + AllocGlobal),
    line: &str,
    word: &str,
    count: usize,
    opt: Opt,
) -> bool {
    let mut whole = String::from_str(rt.alloc(), line).expect(rt, "memory");
    for _ in 0..count {
        whole.push_str(word).expect(rt, "memory");
    }
    match read_line(rt, whole.as_str()) {
        Ok(_) => true,
        Err(fault) => {
            assert_eq!(rt; fault, Refusal::Fault(WordsFault::Value(opt)), "at {whole}");
            false
        }
    }
}

#[test]
fn how_many_pipes_and_moves_there_are(rt: HostRuntime) {
    let chain = "chain --trace t --out o --report r";
    let red = "red --trace t --out o --report r";
    let migrate = "migrate --topology g --trace t --out o --report r";
    let tables = [
        (chain, " 1000:0:1:0", 16, Opt::Pipe),
        (red, " 1000:0:1:0:0:0:1:0", 16, Opt::Pipe),
        (migrate, " 0:0:0", 64, Opt::Move),
    ];
    for (line, word, most, opt) in tables {
        assert!(rt; many_are_read(&rt, line, word, most, opt));
        assert!(rt; !many_are_read(&rt, line, word, most + 1, opt));
    }
}

/// The name of a file, or a sign where there is none.
fn name_of(file: &Option<FileName>) -> &str {
    match file {
        Some(name) => name.as_str(),
        None => "no",
    }
}

/// What is asked for, field after field.
fn told(rt: &(impl Abort + AllocGlobal), order: &Order) -> Result<String, AllocError> {
    let alloc = rt.alloc();
    match order {
        Order::Chain(o) => {
            let files = [o.trace.as_str(), o.out.as_str(), o.report.as_str()];
            format!(in alloc;
                "{files:?} {} {} {:?} {:?}",
                o.tick_ns,
                o.seed,
                o.loss,
                o.pipes.as_slice()
            )
        }
        Order::Distill(o) => format!(in alloc;
            "{} {:?} {}",
            o.topology.as_str(),
            o.mode,
            o.tick_ns
        ),
        Order::Assign(o) => format!(in alloc; "{} {:?} {}", o.topology.as_str(), o.mode, o.cores),
        Order::Workload(o) => format!(in alloc; "{} {} {}", o.number, o.packets, o.cores),
        Order::Red(o) => {
            let files = [o.trace.as_str(), o.out.as_str(), o.report.as_str()];
            format!(in alloc;
                "{files:?} {} {} {:?}",
                o.tick_ns,
                o.seed,
                o.pipes.as_slice()
            )
        }
        Order::Rehearse(o) | Order::Emulate(o) => run_told(alloc, o),
        Order::Journal(o) => {
            let files = [
                o.topology.as_str(),
                o.trace.as_str(),
                o.out.as_str(),
                name_of(&o.directory),
            ];
            format!(in alloc;
                "{files:?} {:?} {} {} {} {:?}",
                o.mode, o.cores, o.seed, o.tick_ns, o.loss
            )
        }
        Order::Check(o) => {
            let files = [
                o.topology.as_str(),
                o.trace.as_str(),
                o.journal.as_str(),
                name_of(&o.directory),
            ];
            format!(in alloc;
                "{files:?} {:?} {} {} {} {:?}",
                o.mode, o.cores, o.seed, o.tick_ns, o.loss
            )
        }
        Order::Migrate(o) => migrate_told(alloc, o),
    }
}

fn run_told(alloc: Global, o: &RunOrder) -> Result<String, AllocError> {
    let inputs = [o.topology.as_str(), o.trace.as_str(), name_of(&o.directory)];
    let outputs = [o.out.as_str(), o.report.as_str()];
    let numbers = [o.seed, o.tick_ns, o.order];
    format!(in alloc;
        "{inputs:?} {outputs:?} {:?} {} {numbers:?} {} {} {:?}",
        o.mode, o.cores, o.turns, o.cluster_report, o.loss
    )
}

fn migrate_told(alloc: Global, o: &MigrateOrder) -> Result<String, AllocError> {
    let inputs = [o.topology.as_str(), o.trace.as_str(), name_of(&o.directory)];
    let outputs = [o.out.as_str(), o.report.as_str()];
    let moves = o.moves.as_slice();
    format!(in alloc;
        "{inputs:?} {outputs:?} {:?} {} {} {} {:?} {moves:?}",
        o.mode, o.cores, o.seed, o.tick_ns, o.loss
    )
}

/// Lines, each with what it asks for.
const ORDERS: [(&str, &str); 19] = [
    (
        "chain --trace --out --out -- --report --seed=1 8000000:5000:50:0",
        "[\"--out\", \"--\", \"--seed=1\"] 100000 0 Packet \
        [PipeSpec { bps: 8000000, latency_us: 5000, queue: 50, ppm: 0 }]",
    ),
    (
        "chain 1000000000000:10000000:1000:1000000 --loss=arrival --report=a=b 1000:0:1:0 --tick-ns=10000000 \
        --out= --seed 18446744073709551615 --trace=--ü",
        "[\"--ü\", \"\", \"a=b\"] 10000000 18446744073709551615 Arrival \
        [PipeSpec { bps: 1000000000000, latency_us: 10000000, queue: 1000, ppm: 1000000 }, \
        PipeSpec { bps: 1000, latency_us: 0, queue: 1, ppm: 0 }]",
    ),
    ("distill --topology t", "t Hop 100000"),
    (
        "distill --mode=hop --tick-ns 1000 --topology --mode",
        "--mode Hop 1000",
    ),
    ("distill --topology t --mode end", "t End 100000"),
    (
        "distill --topology t --mode walk:0004096",
        "t Walk(4096) 100000",
    ),
    (
        "distill --topology t --mode walk:1:4096",
        "t WalkOut(1, 4096) 100000",
    ),
    ("assign --topology t", "t Hop 1"),
    (
        "assign --cores=16 --mode walk:1 --topology --cores=17",
        "--cores=17 Walk(1) 16",
    ),
    (
        "rehearse --report r --out o --trace t --topology g",
        "[\"g\", \"t\", \"no\"] [\"o\", \"r\"] Hop 1 [0, 100000, 0] 0 false Packet",
    ),
    (
        "rehearse --loss arrival --turns=1000000 --order 18446744073709551615 --cluster-report=yes --directory d \
        --tick-ns 1000 --seed=7 --cores 3 --mode end --report r --out o --trace t --topology g",
        "[\"g\", \"t\", \"d\"] [\"o\", \"r\"] End 3 [7, 1000, 18446744073709551615] 1000000 true Arrival",
    ),
    (
        "emulate --cluster-report yes --directory= --report=--out --out --report --loss=arrival --trace t=t --topology=g --cores=16",
        "[\"g\", \"t=t\", \"\"] [\"--report\", \"--out\"] Hop 16 [0, 100000, 0] 0 true Arrival",
    ),
    ("workload --number 0", "0 20000 4"),
    (
        "workload --cores=16 --packets 200000 --number=18446744073709551615",
        "18446744073709551615 200000 16",
    ),
    (
        "journal --out o --trace t --topology g",
        "[\"g\", \"t\", \"o\", \"no\"] Hop 1 0 100000 Packet",
    ),
    (
        "check --journal j --trace t --topology g --directory=d --mode walk:2 --cores 16 --seed 7 --tick-ns 1000 --loss arrival",
        "[\"g\", \"t\", \"j\", \"d\"] Walk(2) 16 7 1000 Arrival",
    ),
    (
        "red --trace t 1000:0:1:0:0:0:1:0 --out o --report r 8000000:5000:50:0:16:999:1000:1000000 --seed 7",
        "[\"t\", \"o\", \"r\"] 100000 7 [RedSpec { base: PipeSpec { bps: 1000, latency_us: 0, queue: 1, ppm: 0 }, \
        shift: 0, min: 0, max: 1, early: 0 }, \
        RedSpec { base: PipeSpec { bps: 8000000, latency_us: 5000, queue: 50, ppm: 0 }, \
        shift: 16, min: 999, max: 1000, early: 1000000 }]",
    ),
    (
        "migrate --topology g --trace t --out o --report r --mode walk:1 --cores 2 1:4:0 9:0:1",
        "[\"g\", \"t\", \"no\"] [\"o\", \"r\"] Walk(1) 2 0 100000 Packet \
        [MoveSpec { window: 1, pipe: 4, core: 0 }, MoveSpec { window: 9, pipe: 0, core: 1 }]",
    ),
    (
        "migrate 18446744073709551615:262143:0 --loss arrival --directory d --seed 1 --topology g --trace t --out o --report r \
        18446744073709551615:0:0",
        "[\"g\", \"t\", \"d\"] [\"o\", \"r\"] Hop 1 1 100000 Arrival \
        [MoveSpec { window: 18446744073709551615, pipe: 262143, core: 0 }, \
        MoveSpec { window: 18446744073709551615, pipe: 0, core: 0 }]",
    ),
];

#[test]
fn what_words_ask_for(rt: HostRuntime) {
    for (line, wanted) in ORDERS {
        match read_line(&rt, line) {
            Ok(order) => {
                let found = told(&rt, &order).expect(&rt, "memory");
                assert_eq!(rt; found.as_str(), wanted, "at {line}");
            }
            Err(fault) => panic!(rt; "{fault:?} at {line}"),
        }
    }
}
