//! The texts that `--help` prints behind the arguments, one for each command, and the text of `--version`.

/// The version, the formats that the program reads, and the kit that it is proved with.
pub(crate) const VERSION: &str = "0.1.0
reads JAVA PROFILE 1.0.1 and JAVA PROFILE 1.0.2
proved with rattle-kit-13f logic dac8208d650f15bf";

/// The program.
pub(crate) const PROGRAM: &str = "\
Without a command, hprof reads one dump on standard input and writes the
canonical dump to standard output.

`hprof COMMAND --help` explains the lines of a command and shows an example.

A running Java process writes a dump, to a file that is not there yet, with
    jcmd PID GC.heap_dump $PWD/heap.hprof
A process that was started with -XX:+HeapDumpOnOutOfMemoryError writes one when
its memory runs out. A compressed dump goes through zcat:
    hprof histo <(zcat heap.hprof.gz)

PARTs are pieces of one heap, in any order; mostly there is one. Two dumps of
one process are two heaps: `diff` compares them. Identifiers are hexadecimal,
without 0x or @. A reader that closes early, as head does, is a failed write:
cut with sed -n 1,10p instead. While files are read, a terminal shows how much
of them was read.

Each command takes the option --memory SIZE, and reads dumps that are larger
than the memory: objects may take SIZE bytes there. More of them are read again
from the dump, or go to a file in TMPDIR that is removed. SIZE is a number, with
K, M, G or T behind it for powers of 1024. Without the option it is a quarter of
the memory that is available.

Exit status: 0 done, 1 refused (one line on standard error), 2 not understood.";

/// The command `diff`.
pub(crate) const DIFF: &str = "\
Columns: bytes, number of objects, name: each number that of NEW less that of
OLD, with its sign. What grew by the most bytes comes first, then by the most
objects, then by name. A class or type without a difference has no line.

    $ hprof diff monday.hprof friday.hprof | sed -n 1,2p
    +330 +22 byte[]
    +224 +16 java/lang/String

Identifiers change from dump to dump, so classes are told by name: classes of
one name are counted together, and those without a name are \\?. Bytes are the
field and element data in the dump, without object headers and padding. A
reference has 4 or 8 bytes: compare dumps with identifiers of one size.

OLD is part 0 of a refusal, NEW is part 1. A compressed dump goes through zcat:
    $ hprof diff <(zcat old.hprof.gz) new.hprof

`hprof --help` explains --memory.

Exit status: 0 done, 1 refused (one line on standard error), 2 not understood.";

/// The command `ask`.
pub(crate) const ASK: &str = "\
A question is a line: check, histo, classes, objects KIND, object ID, refs ID,
path ID, text ID, why ID or help. Its answer is what the command prints, and an
empty line behind it. Answers come in the order of the questions, each at once.
A line that is no question is answered with a line that says so.

    $ printf 'refs 740000e58\\ntext 7400007f0\\n' | hprof ask friday.hprof
    740000410 static 0

    text 3 cyd

The line `quit` or `exit` ends the dialogue, and on a terminal Control-D does.
Identifiers are hexadecimal, without 0x or @. Two dumps of one process are two
heaps: ask each alone. A compressed dump goes through zcat:
    $ hprof ask <(zcat heap.hprof.gz)

`hprof --help` explains --memory. Objects beyond it are read again for each
answer.

Exit status: 0 done, 1 refused (one line on standard error), 2 not understood.";

/// The command `join`.
pub(crate) const JOIN: &str = "\
Prints nothing. OUT has each name, class, thread, root and object once, in one
fixed order, so dumps of equal facts and time are equal byte for byte. `join`
reads every part before it writes.

    $ hprof join all.hprof part1.hprof part2.hprof

A file OUT that is there already is refused and stays as it was. If `join`
refuses later, it removes OUT.

Parts are pieces of one heap, in any order. Two dumps of one process are two
heaps, and cannot be joined: `conflict at load 1`, or at another fact. A
compressed part goes through zcat: hprof join all.hprof <(zcat part.hprof.gz)

`hprof --help` explains --memory. The file for objects is beside OUT.

Exit status: 0 done, 1 refused (one line on standard error), 2 not understood.";

/// The command `join101`.
pub(crate) const JOIN101: &str = "\
Prints nothing. OUT has the facts that `join` writes, as JAVA PROFILE 1.0.1,
with all roots, classes and objects in one record. If these have more than
4,294,967,295 bytes, it refuses: `dump too long`. `join` has no such limit.

    $ hprof join101 old.hprof heap.hprof

A file OUT that is there already is refused and stays as it was. If `join101`
refuses later, it removes OUT.

Parts are pieces of one heap, in any order. Two dumps of one process are two
heaps, and cannot be joined: `conflict at load 1`, or at another fact. A
compressed part goes through zcat: hprof join101 old.hprof <(zcat part.hprof.gz)

`hprof --help` explains --memory. The file for objects is beside OUT.

Exit status: 0 done, 1 refused (one line on standard error), 2 not understood.";

/// The command `salvage`.
pub(crate) const SALVAGE: &str = "\
Joins what stands before the first fault of each part, and writes it to OUT.
Then prints the fault of each damaged part, in order, counted from 0: its offset
in bytes, and the reason. Damage is no refusal. If no part is damaged, nothing
is printed.

    $ hprof salvage saved.hprof cut.hprof
    part 0: malformed at 4982: Truncated

A dump that was cut short mostly has no roots, so `path` reaches nothing in OUT.
A file OUT that is there already is refused and stays as it was. If `salvage`
refuses later, it removes OUT, unless only the faults cannot be printed.

Parts are pieces of one heap. Two dumps of one process are two heaps: salvage
each alone. A compressed part goes through zcat:
    $ hprof salvage saved.hprof <(zcat heap.hprof.gz)

`hprof --help` explains --memory. The file for objects is beside OUT.

Exit status: 0 done, 1 refused (one line on standard error), 2 not understood.";
