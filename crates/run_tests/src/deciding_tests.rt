//! What is decided is written.

use crate::case::{Case, Left, first_unmet};
use crate::texts::{FIVE, FIVE_AT_12, FIVE_OVER_11, THREE, THREE_AT_5};

/// The buffers of five that do not fit within 11, and fit without any one of them.
const CORE_OF_FIVE: &str = "id,lower,upper,size\nb2,3,9,4\nb3,0,9,4\nb5,0,21,4\n";

const CORE_OVER_11: &str = "dsalog 1 3 11\nover 3 0 1 : 0=0 1=0 2=0\nend 0\n";

const THREE_OVER_3: &str = "dsalog 1 3 3\nover 0 0 1 : 0=0 1=0 2=0\nend 0\n";

const THREE_OVER_4: &str = "dsalog 1 3 4
over 0 3 1 : 2=3
over 0 4 1 : 1=4
case : 1=1 2=1 : 1>0 2>1
over 0 2 2 : 0=2 1=2
case : 0=0 1=0 2=0 : 0>2 1~0 2>3
end 4
";

/// Line 0 is cited by none.
const THREE_OVER_4_WITH_WASTE: &str = "dsalog 1 3 4
over 0 5 1 : 0=5
over 0 3 1 : 2=3
over 0 4 1 : 1=4
case : 1=1 2=1 : 1>1 2>2
over 0 2 2 : 0=2 1=2
case : 0=0 1=0 2=0 : 0>3 1~0 2>4
end 5
";

/// The same log as version 2 has it: no claim is shorter as a difference.
const THREE_UPGRADED: &str = "dsalog 2 3 4
over 0 5 1 : 0=5
over 0 3 1 : 2=3
over 0 4 1 : 1=4
case : 1=1 2=1 : 1>1 2>2
over 0 2 2 : 0=2 1=2
case : 0=0 1=0 2=0 : 0>3 1~0 2>4
end 5
";

/// Where the buffers are five. A call more on the files would fail, and so would a second put.
const OF_FIVE: Case = Case {
    line: "",
    files: &[("i", FIVE), ("waste", THREE_OVER_4_WITH_WASTE)],
    calls: 2,
    puts: 1,
    code: 0,
    printed: "",
    output: Left::Nothing,
    log: Left::Nothing,
};

/// Where they are three.
const OF_THREE: Case = Case {
    files: &[("i", THREE), ("waste", THREE_OVER_4_WITH_WASTE)],
    ..OF_FIVE
};

static DECIDED: [Case; 18] = [
    Case {
        line: "solve --capacity 12 --input i --output o --log l",
        calls: 2,
        printed: "feasible 12\n",
        output: Left::Text(FIVE_AT_12),
        ..OF_FIVE
    },
    Case {
        line: "solve --capacity 11 --input i --output o --log l",
        calls: 2,
        code: 1,
        printed: "infeasible 11\n",
        log: Left::Text(FIVE_OVER_11),
        ..OF_FIVE
    },
    Case {
        line: "solve --capacity x --input i --output o --log l",
        calls: 0,
        code: 3,
        printed: "usage bad value 1\n",
        ..OF_FIVE
    },
    Case {
        line: "least --input i --output o --log l",
        calls: 3,
        printed: "least 12\n",
        output: Left::Text(FIVE_AT_12),
        log: Left::Text(FIVE_OVER_11),
        ..OF_FIVE
    },
    Case {
        line: "least --input i --output o --log l --steps 0",
        calls: 3,
        code: 2,
        printed: "open 4 5\n",
        output: Left::Text(THREE_AT_5),
        log: Left::Text(THREE_OVER_3),
        ..OF_THREE
    },
    Case {
        line: "pack --input i --output o --log l --steps 0",
        calls: 3,
        printed: "least 12\n",
        output: Left::Text(FIVE_AT_12),
        log: Left::Text(FIVE_OVER_11),
        ..OF_FIVE
    },
    Case {
        line: "pack --capacity 4 --input i --output o --log l --steps 0",
        calls: 3,
        code: 2,
        printed: "open 4 5\n",
        output: Left::Text(THREE_AT_5),
        log: Left::Text(THREE_OVER_3),
        ..OF_THREE
    },
    Case {
        line: "solve --capacity 4 --input i --output o --log l --steps 0",
        calls: 3,
        code: 2,
        printed: "open 4 5\n",
        output: Left::Text(THREE_AT_5),
        log: Left::Text(THREE_OVER_3),
        ..OF_THREE
    },
    Case {
        line: "trim --input i --log waste --output o",
        calls: 2,
        code: 1,
        printed: "refused count 3 5\n",
        ..OF_FIVE
    },
    Case {
        line: "trim --input i --log waste --output o",
        calls: 3,
        printed: "trimmed 6 5\n",
        output: Left::Text(THREE_OVER_4),
        ..OF_THREE
    },
    Case {
        line: "classes --input i --output o",
        calls: 2,
        printed: "classes 12 12\n",
        output: Left::Text(FIVE_AT_12),
        ..OF_FIVE
    },
    Case {
        line: "classes --input i --output o",
        calls: 1,
        code: 4,
        printed: "not plain 0\n",
        ..OF_THREE
    },
    Case {
        line: "core --capacity 11 --input i --output o --log l",
        calls: 3,
        code: 1,
        printed: "core 3\n",
        output: Left::Text(CORE_OF_FIVE),
        log: Left::Text(CORE_OVER_11),
        ..OF_FIVE
    },
    Case {
        line: "core --capacity 12 --input i --output o --log l",
        calls: 1,
        printed: "no core 12\n",
        ..OF_FIVE
    },
    Case {
        line: "upgrade --input i --log waste --output o",
        calls: 3,
        printed: "upgraded 6\n",
        output: Left::Text(THREE_UPGRADED),
        ..OF_THREE
    },
    Case {
        line: "unroll --period 10 --input i --output o",
        files: &[("i", "id,lower,upper,size\nA,8,2,4\nB,2,8,4\n")],
        calls: 2,
        printed: "unrolled 2\n",
        output: Left::Text("id,lower,upper,size,gaps\nA,0,10,4,2-8\nB,2,8,4,\n"),
        ..OF_FIVE
    },
    Case {
        line: "unroll --period 10 --input i --output o",
        files: &[("i", "id,lower,upper,size\nA,10,2,4\n")],
        calls: 1,
        code: 4,
        printed: "cycle row 0 outside\n",
        ..OF_FIVE
    },
    Case {
        line: "import --trace i --output o",
        files: &[("i", "alloc a 4 1\nfree a\n")],
        calls: 2,
        printed: "imported 1\n",
        output: Left::Text("id,lower,upper,size,alignment,name\na0,0,1,4,1,a\n"),
        ..OF_FIVE
    },
];

#[test]
fn what_is_decided_is_written(rt: HostRuntime) {
    assert_eq!(rt; first_unmet(rt.alloc(), &DECIDED), None);
}
