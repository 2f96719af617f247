// What scripts over maps in memory are replied to. The examples of docs/KEYS.md are among them, word for word.

use super::*;

const SCRIPTS: &[(&str, &str)] = &[
    ("", ""),
    (
        "set fruit apple red\nset fruit lime green\nget fruit lime\nget fruit plum\nset fruit lime yellow\nscan fruit - 10\n",
        "new\nnew\nvalue green\nnone\nwas green\npairs 2 apple red lime yellow\n",
    ),
    // The last line has no end.
    (
        "set m k v\ndel m k\ndel m k\nget m k",
        "new\nwas v\nnone\nnone\n",
    ),
    (
        "set m \\20 \\\\\nget m \\20\nset m \\2d -\nget m \\2d\nset - - \\00\\ff\nget - -\nscan m - 10\n",
        "new\nvalue \\\\\nnew\nvalue -\nnew\nvalue \\00\\ff\npairs 2 \\20 \\\\ \\2d -\n",
    ),
    // What may look like another spelling is none: a dash among other bytes, and the words of swaps.
    (
        "set m -- =\nset m none =none\nset m a-\\09 -b\nset m \\2d\\20 \\7f\\80\nscan m - 9\nget m none\n",
        "new\nnew\nnew\nerror line\npairs 3 -- = a-\\09 -b none =none\nvalue =none\n",
    ),
    (
        "set n 1 one\nset n 3 three\nset n 2 two\nfirst n\nlast n\nabove n 1\nbelow n 1\nabove n 3\nbelow n 25\nscan n 2 10\nscan n - 2\nscan n 31 5\nlen n\n",
        "new\nnew\nnew\npair 1 one\npair 3 three\npair 2 two\nnone\nnone\npair 2 two\npairs 2 2 two 3 three\npairs 2 1 one 2 two\npairs 0\nlen 3\n",
    ),
    // The empty key is the first, and a key comes before those that it begins.
    (
        "set m a 2\nset m - 1\nset m a\\00 3\nset m \\ff 4\nfirst m\nabove m -\nabove m a\nbelow m a\\00\nbelow m \\ff\nbelow m -\nscan m - 2\nscan m a 2\n",
        "new\nnew\nnew\nnew\npair - 1\npair a 2\npair a\\00 3\npair a 2\npair a\\00 3\nnone\npairs 2 - 1 a 2\npairs 2 a 2 a\\00 3\n",
    ),
    (
        "cas n k none =1\ncas n k none =2\ncas n k =2 =3\ncas n k =1 =2\nget n k\ncas n k =2 none\ncas n k =2 =3\ncas n k none none\nget n k\n",
        "swapped\nhas 1\nhas 1\nswapped\nvalue 2\nswapped\nhas none\nswapped\nnone\n",
    ),
    (
        "cas n k none =-\ncas n k none none\ncas n k =- =\\20\ncas n k =- none\ncas n k =\\20 =none\nget n k\ncas n k =none =\\2d\nget n k\n",
        "swapped\nhas -\nswapped\nhas \\20\nswapped\nvalue none\nswapped\nvalue \\2d\n",
    ),
    (
        "set pears a 1\nset apples a 2\nmaps\nlen apples\ndrop apples\ndrop apples\nmaps\nget apples a\nget pears a\n",
        "new\nnew\nmaps 2 apples pears\nlen 1\ndropped\nnone\nmaps 1 pears\nnone\nvalue 1\n",
    ),
    // A name that was dropped is given a new map, and one whose pairs are gone keeps its own.
    (
        "set a k 1\ndrop a\nset a j 2\nscan a - 9\ndel a j\nmaps\nlen a\nfirst a\nlast a\nscan a - 1\nset \\00 k 1\nset - k 1\nmaps\n",
        "new\ndropped\nnew\npairs 1 j 2\nwas 2\nmaps 1 a\nlen 0\nnone\nnone\npairs 0\nnew\nnew\nmaps 3 - \\00 a\n",
    ),
    // Where there is no such map nothing but `set`, and a `cas` that sets, makes one.
    (
        "get m k\ndel m k\nfirst m\nlast m\nabove m k\nbelow m k\nscan m - 5\nlen m\ndrop m\ncas m k none none\ncas m k =1 none\ncas m k =1 =2\nmaps\ncas m k none =2\nmaps\n",
        "none\nnone\nnone\nnone\nnone\nnone\npairs 0\nlen 0\nnone\nswapped\nhas none\nhas none\nmaps 0\nswapped\nmaps 1 m\n",
    ),
    ("id\nid\nid\n", "id 0\nid 1\nid 2\n"),
    // The eleventh id needs a new counter.
    (
        "id\nid\nid\nid\nid\nid\nid\nid\nid\npin\nid\nid\nid\nseal\nid\n",
        "id 0\nid 1\nid 2\nid 3\nid 4\nid 5\nid 6\nid 7\nid 8\nok\nid 9\nerror batch\nerror batch\nok\nid 10\n",
    ),
    (
        "pin\nset debit anna 10\nset credit bert 10\nflush\npin\nseal\nseal\nget debit anna\n",
        "ok\nnew\nnew\nerror batch\nerror batch\nok\nerror batch\nvalue 10\n",
    ),
    (
        "cancel\nseal\npin\nset a k 1\ncancel\ncancel\nget a k\npin\nset a k 2\ndel a k\ncas a k none =3\ndrop a\nset a j 4\nmaps\nlen a\nfirst a\nx\nseal\nget a j\n",
        "error batch\nerror batch\nok\nnew\nok\nerror batch\nvalue 1\nok\nwas 1\nwas 2\nswapped\ndropped\nnew\nmaps 1 a\nlen 1\npair j 4\nerror line\nok\nvalue 4\n",
    ),
    // The script ends inside a batch.
    ("pin\nset a k 1\nget a k", "ok\nnew\nvalue 1\n"),
    ("pin", "ok\n"),
];

#[test]
fn scripts_are_replied_to_so(rt: HostRuntime) {
    for (script, want) in SCRIPTS {
        assert!(rt;
            replies(rt.alloc(), script.as_bytes(), want.as_bytes()),
            "at {script}"
        );
    }
}
