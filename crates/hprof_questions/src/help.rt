//! The texts that explain the reports: what the lines and columns of each are, and an example.

/// The report `check`.
pub(crate) const CHECK: &str = "\
First comes a line for each part, in order, counted from 0: its version, the
bytes of an identifier, its time in milliseconds since 1970, its number of
records, its number of facts (names, classes, objects and so on), and whether
it has an end record. Then each kind of fact has a line with the number of them
in all parts together, each counted once. Bad names are not modified UTF-8.

    $ hprof check friday.hprof | sed -n 1,3p
    part 0: version 1.0.2 ids 8 time 1795766400000 records 72 facts 209 end yes
    names 46
    loads 14

Parts are pieces of one heap. Two dumps of one process are two heaps: check each
alone. A compressed dump goes through zcat:
    $ hprof check <(zcat heap.hprof.gz)

Exit status: 0 done, 1 refused (one line on standard error), 2 not understood.";

/// The report `histo`.
pub(crate) const HISTO: &str = "\
Columns: bytes, number of objects, identifier of the class, name. The most bytes
come first, then the most objects, then classes by identifier.

    $ hprof histo friday.hprof | sed -n 1,3p
    605 40 - byte[]
    406 29 740000070 java/lang/String
    352 11 7400003a0 shop/Session

Bytes are the field and element data in the dump, without object headers and
padding, so totals are smaller than the JVM's. Arrays of numbers are under no
class: their line has a type, and - in place of an identifier.

Two dumps of one process are two heaps: `diff` compares them. A compressed dump
goes through zcat: hprof histo <(zcat heap.hprof.gz). A reader that closes
early, as head does, is a failed write.

Exit status: 0 done, 1 refused (one line on standard error), 2 not understood.";

/// The report `classes`.
pub(crate) const CLASSES: &str = "\
Columns: identifier of the class; behind `super` its superclass, 0 for none;
behind `bytes` and `objects` those of its objects; name. Lines come in order of
identifier. A class without objects has a line too.

    $ hprof classes friday.hprof | grep shop/S
    7400003a0 super 740000000 bytes 352 objects 11 shop/Session
    740000410 super 740000000 bytes 0 objects 0 shop/Server

Objects of subclasses are not counted. Bytes are the field and element data in
the dump, without object headers and padding. Arrays of numbers are under no
class: `histo` counts them.

Two dumps of one process are two heaps: ask each alone. A reader that closes
early, as head does, is a failed write.

Exit status: 0 done, 1 refused (one line on standard error), 2 not understood.";

/// The report `suspects`.
pub(crate) const SUSPECTS: &str = "\
First the bytes and the number of all classes and objects that strong references
reach from a GC root. Then each suspect: an object below which memory falls apart
into many pieces, with the share and the bytes of these pieces; the objects that
keep it alive, from the outermost down to itself, each with the bytes and the
number of objects that would go without it; and behind two spaces what the pieces
are, added up by class: bytes, number, class. Sums below a tenth are left out.

    $ hprof suspects friday.hprof | sed -n 3,10p
    suspect 60% 1050
    1131 68 740000380 jdk/internal/loader/ClassLoaders$AppClassLoader
    1098 63 7400004d8 java/util/ArrayList
    1082 62 7400004b8 [Ljava/lang/Object;
    1066 61 740000410 class shop/Server
    1066 60 740000e58 java/util/ArrayList
    1050 59 740000df8 [Ljava/lang/Object;
      970 7 shop/Session

Of a long chain of objects the first ten and the last ten are printed. Objects of
one class that keep each other, as the cells of a list, count as one. A suspect
without objects above stands for the roots together. `biggest` lists the objects
of a sum, `keeps` what is around an object, `why` which root and fields hold it.
A class counts 0 bytes; headers and padding of objects do not count.

Exit status: 0 done, 1 refused (one line on standard error), 2 not understood.";

/// The report `retained`.
pub(crate) const RETAINED: &str = "\
Columns: bytes that the objects of a class or a type retain; their own bytes;
their number; name. Classes with one name share a line. The most retained bytes
come first, then the most bytes, then the most objects, then by name.

    $ hprof retained friday.hprof | sed -n 1,3p
    1215 288 9 shop/Session
    1155 176 11 java/util/ArrayList
    1131 16 1 jdk/internal/loader/ClassLoaders$AppClassLoader

Retained bytes would go without the objects. Those of different lines overlap, as
far as objects of one keep objects of the other alive. What only two lines hold
together is in neither, so all objects of a class free that much at least. Only
what strong references reach from a GC root counts. A class is an object of
java/lang/Class and counts 0 bytes; headers and padding of objects do not count.

Exit status: 0 done, 1 refused (one line on standard error), 2 not understood.";

/// The report `biggest`.
pub(crate) const BIGGEST: &str = "\
A line for each object that strong references reach from a GC root: the bytes
and the number of the classes and objects that would go without it, its
identifier and its class. Those that retain the most bytes come first, then the
most objects, then by identifier. If there are none, nothing is printed.

    $ hprof biggest shop.Session friday.hprof | sed -n 1,3p
    160 10 740000738 shop/Session
    160 10 740000ac0 shop/Session
    135 8 7400005e0 shop/Session

The bytes of two lines overlap if one object keeps the other alive: `keeps` tells
what an object keeps. Weak, soft and phantom references keep nothing alive.
Headers and padding of objects do not count. KIND is that of `objects`: a type of
arrays, as byte[], a class by its hexadecimal identifier, or by its name, as
shop.Session; of java.lang.Class also the classes that are no objects.

Exit status: 0 done, 1 refused (one line on standard error), 2 not understood.";

/// The report `objects`.
pub(crate) const OBJECTS: &str = "\
Columns: bytes of the object, its identifier. The largest come first, then by
identifier. Objects of subclasses are not listed. If there are none, nothing is
printed.

    $ hprof objects shop.Session friday.hprof | sed -n 1,2p
    32 7400005e0
    32 740000738
    $ hprof objects 'byte[]' friday.hprof | sed -n 1p
    45 7400005a0

KIND is a type of arrays, as byte[] or [B: boolean, char, float, double, byte,
short, int or long; or else a class, as its hexadecimal identifier without 0x or
@; or else a name, with dots or slashes, that of arrays as shop.Session[]. All
classes with the name count. LFace; is the class Face, which is an identifier.

Bytes are the field and element data in the dump, without object headers and
padding. Two dumps of one process are two heaps: ask each alone. A reader that
closes early, as head does, is a failed write.

Exit status: 0 done, 1 refused (one line on standard error), 2 not understood.";

/// The report `object`.
pub(crate) const OBJECT: &str = "\
The first line is the class, the instance or the array. The other lines come in
the order of the dump, and are counted from 0:
    of a class       constant N INDEX TYPE BITS
                     static N TYPE BITS NAME
                     own N TYPE NAME                its own instance fields
    of an instance   field N CLASS TYPE BITS NAME   superclasses' fields last
    of an array      element N ID, or bytes HEXADECIMAL

    $ hprof object 740000850 friday.hprof | sed -n 1,2p
    instance 740000850 class 7400003a0 bytes 32 shop/Session
    field 0 7400003a0 object 00000007400007f0 user

BITS are raw and hexadecimal. If the dump has no such class or object, the line
is `nothing at ID`. ID is hexadecimal, without 0x or @. `text` reads strings.
Two dumps of one process are two heaps: ask each alone.

Exit status: 0 done, 1 refused (one line on standard error), 2 not understood.";

/// The report `refs`.
pub(crate) const REFS: &str = "\
Columns: the class or object that holds the reference, the kind of reference,
and its index there, counted from 0. Kinds, in order: class, super, loader,
signers, domain, constant, static, field, element. Lines come in order of the
first column, then of kind, then of index. If there are none, nothing is
printed.

    $ hprof refs 740000e58 friday.hprof
    740000410 static 0

`object` prints the static field, the field or the element at that index.

Weak, soft and phantom references count as any other. ID is hexadecimal, without
0x or @. Two dumps of one process are two heaps: ask each alone. A reader that
closes early, as head does, is a failed write.

Exit status: 0 done, 1 refused (one line on standard error), 2 not understood.";

/// The report `path`.
pub(crate) const PATH: &str = "\
The first line is the number of references on the path. Then each class or
object on it has a line with its identifier, from the GC root to ID.

    $ hprof path 740000410 friday.hprof
    distance 3
    740000380
    7400004d8
    7400004b8
    740000410

If no GC root leads to ID, or the dump has no such class or object, the line is
`not reached`. A dump that was cut short mostly has no roots.

Weak, soft and phantom references count as any other, so a path may lead through
one that keeps nothing alive. ID is hexadecimal, without 0x or @. Two dumps of
one process are two heaps: ask each alone.

Exit status: 0 done, 1 refused (one line on standard error), 2 not understood.";

/// The report `text`.
pub(crate) const TEXT: &str = "\
Prints one line: `text`, the number of UTF-16 units, and the text. Units other
than printable ASCII are escaped as in Java, and so is the backslash: \\u005c.

    $ hprof text 7400007f0 friday.hprof
    text 3 cyd

ID is a string, a StringBuilder, or an array of chars or bytes. A StringBuilder
shows all of its room, also behind the end of its text. A byte array is read as
Latin-1. If another object is at ID, the line is `no text at ID`; if the dump
has no such class or object, it is `nothing at ID`.

ID is hexadecimal, without 0x or @. Two dumps of one process are two heaps: ask
each alone.

Exit status: 0 done, 1 refused (one line on standard error), 2 not understood.";

/// The report `why`.
pub(crate) const WHY: &str = "\
The first line is the number of references on the path. Then each GC root of its
first object has a line, below it its thread and the method that runs there; and
each class or object on the path, from the root to ID. Between two of them,
indented, stands the reference: its kind and index, as `refs` prints them, and
the name of a static field or a field.

    $ hprof why 740000f20 friday.hprof
    distance 6
    root Java frame thread 2 frame 1
      740001300 java/lang/Thread \"mailer\" at shop.Mailer.run(Mailer.java:31)
    7400012a0 shop/Mail
      field 0 next
    .. 4 more
    7400010c0 shop/Mail
      field 1 session
    740000f20 shop/Session

Weak, soft and phantom references are passed by. If nothing else leads to ID,
the first line is `only by weak references`, and their steps begin with `weak`.
Four or more steps of one kind through objects of one class are folded: `.. N
more`.

If no GC root leads to ID, the line is `not reached`; if the dump has no such
class or object, it is `nothing at ID`. ID is hexadecimal, without 0x or @, or
else the name of a class, as shop.Session or shop.Session[]; if several classes
have it, they are listed. Two dumps of one process are two heaps: ask each
alone.

Exit status: 0 done, 1 refused (one line on standard error), 2 not understood.";

/// The report `threads`.
pub(crate) const THREADS: &str = "\
Each thread has a line: its serial number, and its object with its class and its
name. Below it, indented, stand the frames of its stack, the innermost first,
and below a frame the objects that its local variables hold. Threads come in
order of their serial numbers.

    $ hprof threads friday.hprof | sed -n 6,9p
    thread 2 740001300 java/lang/Thread \"mailer\"
      at java.lang.Thread.sleep(Native Method)
      at shop.Mailer.run(Mailer.java:31)
        7400012a0 shop/Mail

What a thread holds elsewhere comes last: below `frame N` if the stack has no
such frame, `no frame`, `native stack` or `thread block`. A dump without threads
prints nothing. Two dumps of one process are two heaps: ask each alone. A reader
that closes early, as head does, is a failed write.

Exit status: 0 done, 1 refused (one line on standard error), 2 not understood.";

/// The report `show`.
pub(crate) const SHOW: &str = "\
The first line is the class, the instance or the array. Below it, indented,
stand
    of a class       super, loader, signers, domain; constants, static fields,
                     and the types of its own fields
    of an instance   its fields; those of a superclass behind `from CLASS`
    of an array      its first 100 elements that are not null, or its text, or
                     its first 256 numbers, 16 a line

    $ hprof show 7400010c0 friday.hprof
    7400010c0 shop/Mail
      field 0 next = null
      field 1 session = 740000f20 shop/Session
      field 2 subject = 7400010a0 java/lang/String \"Bye kim\"

References have the class of what they lead to, strings their text, threads
their name. Numbers are decimal; of float and double they are as
Float.toHexString and Double.toHexString print them, which is exact. If the dump
has no such class or object, the line is `nothing at ID`. ID is hexadecimal,
without 0x or @, or else the name of a class, as shop.Session or shop.Session[];
if several classes have it, they are listed. Two dumps of one process are two
heaps: ask each alone.

Exit status: 0 done, 1 refused (one line on standard error), 2 not understood.";

/// The report `who`.
pub(crate) const WHO: &str = "\
First each GC root of ID has a line, with its thread below it. Then each
reference to ID has a line: what refers, the kind of reference and its index, as
`refs` prints them, and the name of the field. Weak, soft and phantom references
have `weak` before the kind. Of more than 20 references, sums come first.

    $ hprof who 740000f20 friday.hprof
    7400010c0 shop/Mail field 1 session
    $ hprof who 740000070 friday.hprof | sed -n 1,3p
    root sticky class
    29 times java/lang/String class
    740000498 java/lang/String class 0

If there are none, the line is `nothing refers to ID`; if the dump has no such
class or object either, it is `nothing at ID`. ID is hexadecimal, without 0x or
@, or else the name of a class, as shop.Session or shop.Session[]; if several
classes have it, they are listed. Two dumps of one process are two heaps: ask
each alone.

Exit status: 0 done, 1 refused (one line on standard error), 2 not understood.";

pub(crate) const KEEPS: &str = "\
First the bytes and the number of all classes and objects that strong references
reach from a GC root. Then a line for each node that keeps ID alive, from the
outermost down to ID: if one of them goes, so does ID. Below ID, behind two
spaces, what ID keeps alive itself, the largest first. Each line has the bytes
and the number of the classes and objects that would go without it, its
identifier and its class.

    $ hprof keeps 740000850 friday.hprof | sed -n 6,9p
    1066 60 740000e58 java/util/ArrayList
    1050 59 740000df8 [Ljava/lang/Object;
    135 8 740000850 shop/Session
      45 1 740000810 byte[]

ID 0 stands for the roots together: what no other node keeps alive alone. If only
weak, soft or phantom references reach ID, the line is `only by weak references`;
if none do, `not reached`; if the dump has no such class or object, `nothing at
ID`. A class counts 0 bytes; headers and padding of objects do not count. ID is
hexadecimal, without 0x or @, or else the name of a class, as shop.Session or
shop.Session[]; if several classes have it, they are listed.

Exit status: 0 done, 1 refused (one line on standard error), 2 not understood.";
