//! What is read is judged.

use crate::case::{Case, Left, first_unmet};
use crate::texts::{FIVE, FIVE_AT_12, FIVE_OVER_11, THREE, THREE_AT_5};

const THREE_REPORT: &str = "moment 0 load 4 height 5\nplace,size,id\n0,2,C\n2,1,A\n3,1,\n4,1,B\n";

const THREE_COLUMNS: &str = "buffers 3 of 4096 aligned 2 gaps 0 lowest 0
column,meaning
id,id
lower,lower
upper,upper
size,size
alignment,alignment
";

const MISSPELT_COLUMNS: &str = "buffers 1 of 4096 aligned 0 gaps 1 lowest 1
column,meaning
id,id
lower,lower
upper,upper
size,size
Alignment,carried
gaps,gaps
lowest,lowest
";

const MADE_IN_1000: &str = "buffers 2\npeak 2 65\nparts 1\nbound 65 1\nbest 66\nleast 66\n";

const MADE_IN_0: &str = "buffers 2\npeak 2 65\nparts 1\nbound 65 1\nbest 66\nopen 65 66\n";

/// A call more on the files than a case has would fail, and so would a second put.
const JUDGED: Case = Case {
    line: "",
    files: &[
        ("five", FIVE),
        ("right", FIVE_AT_12),
        ("wrong", "id,offset\nb1,0\nb2,0\nb3,4\nb4,0\nb5,3\n"),
        ("log", FIVE_OVER_11),
        ("three", THREE),
        (
            "misspelt",
            "id,lower,upper,size,Alignment,gaps,lowest\nA,0,4,1,2,1-2,8\n",
        ),
        ("placed", THREE_AT_5),
    ],
    calls: 0,
    puts: 1,
    code: 0,
    printed: "",
    output: Left::Nothing,
    log: Left::Nothing,
};

static READ: [Case; 20] = [
    Case {
        line: "bounds --input five",
        calls: 1,
        printed: "buffers 5\npeak 0 12\nparts 1\nbound 12 1\nbest 12\n",
        ..JUDGED
    },
    Case {
        line: "bounds --input log",
        calls: 1,
        code: 4,
        printed: "malformed missing column id\n",
        ..JUDGED
    },
    Case {
        line: "bounds --input none",
        calls: 1,
        code: 5,
        printed: "unread --input\n",
        ..JUDGED
    },
    Case {
        line: "inspect --input three",
        calls: 1,
        printed: THREE_COLUMNS,
        ..JUDGED
    },
    Case {
        line: "inspect --input misspelt",
        calls: 1,
        printed: MISSPELT_COLUMNS,
        ..JUDGED
    },
    Case {
        line: "inspect --input right",
        calls: 1,
        code: 4,
        printed: "malformed offset column\n",
        ..JUDGED
    },
    Case {
        line: "verify --capacity 12 --input five --layout log",
        calls: 2,
        code: 1,
        printed: "wrong missing column id\n",
        ..JUDGED
    },
    Case {
        line: "refute --input three --log log",
        calls: 2,
        code: 1,
        printed: "refused count 5 3\n",
        ..JUDGED
    },
    Case {
        line: "verify --capacity 12 --input five --layout right",
        calls: 2,
        printed: "right\n",
        ..JUDGED
    },
    Case {
        line: "verify --capacity 12 --input five --layout wrong",
        calls: 2,
        code: 1,
        printed: "wrong overlap 0 4 0\n",
        ..JUDGED
    },
    Case {
        line: "refute --input five --log log",
        calls: 2,
        printed: "accepted 11\n",
        ..JUDGED
    },
    Case {
        line: "refute --input five --log five",
        calls: 0,
        code: 3,
        printed: "usage same name\n",
        ..JUDGED
    },
    Case {
        line: "refute --input five --log right",
        calls: 2,
        code: 1,
        printed: "refused not a log\n",
        ..JUDGED
    },
    Case {
        line: "report --input three --layout placed",
        calls: 2,
        printed: THREE_REPORT,
        ..JUDGED
    },
    Case {
        line: "report --input five --layout wrong",
        calls: 2,
        code: 1,
        printed: "wrong overlap 0 4 0\n",
        ..JUDGED
    },
    Case {
        line: "draw --input five --layout right --output o",
        calls: 3,
        printed: "drawn 5\n",
        output: Left::Something,
        ..JUDGED
    },
    Case {
        line: "draw --input five --layout wrong --output o",
        calls: 2,
        code: 1,
        printed: "wrong overlap 0 4 0\n",
        ..JUDGED
    },
    Case {
        line: "trial --seed 1 --count 2 --steps 1000",
        calls: 0,
        printed: MADE_IN_1000,
        ..JUDGED
    },
    Case {
        line: "trial --seed 1 --count 2 --steps 0",
        calls: 0,
        printed: MADE_IN_0,
        ..JUDGED
    },
    Case {
        line: "trial --seed 1 --count 4097 --steps 1000",
        calls: 0,
        code: 3,
        printed: "too many 4097\n",
        ..JUDGED
    },
];

#[test]
fn what_is_read_is_judged(rt: HostRuntime) {
    assert_eq!(rt; first_unmet(rt.alloc(), &READ), None);
}
