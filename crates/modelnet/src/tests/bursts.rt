//! Bursts of packets through chains with short queues and loss. A model of the rules in another language worked out which
//! packets leave, when, and the report.

use super::assert_leave;

#[test]
fn one_pipe_with_loss(rt: HostRuntime) {
    let line = "chain --trace t --out o --report r --seed 7 4000000:300:2:200000";
    let packets = &[
        (0, 1000),
        (1_000_000, 1000),
        (1_400_000, 1500),
        (2_400_000, 60),
        (2_400_000, 1500),
        (2_800_000, 1500),
        (2_800_000, 0),
        (3_200_000, 500),
        (3_200_000, 0),
        (4_200_000, 0),
    ];
    let left = &[
        (2_300_000, 1000),
        (4_300_000, 1000),
        (4_500_000, 60),
        (4_500_000, 0),
    ];
    let report = "modelnet report 1\n\
        packets 10 bound 10 unbound 0 left 4 dropped 6\n\
        pipe 0 passed 4 lost 2 full 4\n\
        drop 2 pipe 0 tick 14 cause loss\n\
        drop 4 pipe 0 tick 24 cause full\n\
        drop 5 pipe 0 tick 28 cause full\n\
        drop 6 pipe 0 tick 28 cause full\n\
        drop 7 pipe 0 tick 32 cause full\n\
        drop 8 pipe 0 tick 32 cause loss\n";
    assert_leave(&rt, line, packets, left, report);
}

#[test]
fn two_pipes_and_a_short_tick(rt: HostRuntime) {
    let line = "chain --trace t --out o --report r --tick-ns 50000 20000000:1000:4:0 \
            4000000:500:2:200000";
    let packets = &[
        (0, 1000),
        (400_000, 1500),
        (3_100_000, 60),
        (4_100_000, 0),
        (5_100_000, 0),
        (5_100_000, 0),
        (5_100_000, 60),
        (6_100_000, 0),
        (6_500_000, 500),
        (6_900_000, 1500),
    ];
    let left = &[
        (3_900_000, 1000),
        (6_900_000, 1500),
        (7_050_000, 60),
        (7_600_000, 0),
        (9_200_000, 500),
        (12_200_000, 1500),
    ];
    let report = "modelnet report 1\n\
        packets 10 bound 10 unbound 0 left 6 dropped 4\n\
        pipe 0 passed 10 lost 0 full 0\n\
        pipe 1 passed 6 lost 3 full 1\n\
        drop 3 pipe 1 tick 102 cause loss\n\
        drop 4 pipe 1 tick 122 cause loss\n\
        drop 5 pipe 1 tick 122 cause full\n\
        drop 6 pipe 1 tick 123 cause loss\n";
    assert_leave(&rt, line, packets, left, report);
}

#[test]
fn five_pipes_and_the_greatest_seed(rt: HostRuntime) {
    let line = "chain --trace t --out o --report r --tick-ns 10000 --seed \
            18446744073709551615 16000000:100:4:0 12000000:0:2:0 \
            16000000:2000:2:50000 5000000:10:3:0 1000000000000:1:1:300000";
    let packets = &[
        (0, 1500),
        (0, 500),
        (400_000, 0),
        (3_100_000, 0),
        (3_500_000, 500),
        (3_900_000, 1500),
        (3_900_000, 500),
        (3_900_000, 60),
        (4_900_000, 500),
        (4_900_000, 0),
        (5_900_000, 0),
        (6_300_000, 0),
    ];
    let left = &[(7_040_000, 1500), (7_840_000, 500), (9_180_000, 500)];
    let report = "modelnet report 1\n\
        packets 12 bound 12 unbound 0 left 3 dropped 9\n\
        pipe 0 passed 12 lost 0 full 0\n\
        pipe 1 passed 8 lost 0 full 4\n\
        pipe 2 passed 7 lost 1 full 0\n\
        pipe 3 passed 6 lost 0 full 1\n\
        pipe 4 passed 3 lost 1 full 2\n\
        drop 2 pipe 1 tick 110 cause full\n\
        drop 3 pipe 4 tick 782 cause full\n\
        drop 4 pipe 3 tick 645 cause full\n\
        drop 5 pipe 2 tick 576 cause loss\n\
        drop 7 pipe 1 tick 503 cause full\n\
        drop 8 pipe 1 tick 528 cause full\n\
        drop 9 pipe 1 tick 528 cause full\n\
        drop 10 pipe 4 tick 916 cause loss\n\
        drop 11 pipe 4 tick 916 cause full\n";
    assert_leave(&rt, line, packets, left, report);
}

#[test]
fn sixteen_pipes(rt: HostRuntime) {
    let line = "chain --trace t --out o --report r --seed 1 30000000:0:2:0 \
            28222223:137:3:20000 26444446:274:4:40000 24666669:411:2:60000 \
            22888892:548:3:0 21111115:685:4:20000 19333338:822:2:40000 \
            17555561:959:3:60000 15777784:1096:4:0 14000007:1233:2:20000 \
            12222230:1370:3:40000 10444453:1507:4:60000 8666676:1644:2:0 \
            6888899:1781:3:20000 5111122:1918:4:40000 3333345:2055:2:60000";
    let packets = &[
        (0, 1000),
        (0, 0),
        (2_700_000, 0),
        (2_700_000, 60),
        (2_700_000, 1000),
        (3_100_000, 1000),
        (3_500_000, 0),
        (4_500_000, 60),
        (7_200_000, 500),
        (7_200_000, 0),
        (7_200_000, 500),
        (7_200_000, 1000),
        (7_200_000, 60),
        (7_200_000, 0),
    ];
    let left = &[
        (29_400_000, 1000),
        (29_400_000, 0),
        (32_100_000, 1000),
        (32_100_000, 0),
    ];
    let report = "modelnet report 1\n\
        packets 14 bound 14 unbound 0 left 4 dropped 10\n\
        pipe 0 passed 10 lost 0 full 4\n\
        pipe 1 passed 10 lost 0 full 0\n\
        pipe 2 passed 9 lost 1 full 0\n\
        pipe 3 passed 8 lost 1 full 0\n\
        pipe 4 passed 8 lost 0 full 0\n\
        pipe 5 passed 8 lost 0 full 0\n\
        pipe 6 passed 7 lost 0 full 1\n\
        pipe 7 passed 7 lost 0 full 0\n\
        pipe 8 passed 7 lost 0 full 0\n\
        pipe 9 passed 5 lost 0 full 2\n\
        pipe 10 passed 5 lost 0 full 0\n\
        pipe 11 passed 5 lost 0 full 0\n\
        pipe 12 passed 5 lost 0 full 0\n\
        pipe 13 passed 5 lost 0 full 0\n\
        pipe 14 passed 5 lost 0 full 0\n\
        pipe 15 passed 4 lost 0 full 1\n\
        drop 2 pipe 9 tick 92 cause full\n\
        drop 3 pipe 9 tick 92 cause full\n\
        drop 5 pipe 3 tick 47 cause loss\n\
        drop 7 pipe 6 tick 75 cause full\n\
        drop 8 pipe 15 tick 284 cause full\n\
        drop 9 pipe 2 tick 79 cause loss\n\
        drop 10 pipe 0 tick 72 cause full\n\
        drop 11 pipe 0 tick 72 cause full\n\
        drop 12 pipe 0 tick 72 cause full\n\
        drop 13 pipe 0 tick 72 cause full\n";
    assert_leave(&rt, line, packets, left, report);
}
