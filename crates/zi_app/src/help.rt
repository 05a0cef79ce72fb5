//! What the program says of itself.

/// The answer to `--help`: each command and option that is built, with what stands where it isn't said.
pub const HELP: &str =
    "zi reads Zero Install feeds and selects the implementations of a program and of what it
needs.

For example: zi select --no-command /home/me/hello.xml

zi select [options] ROOT
    Writes the selections document of the program whose interface has the address ROOT:
    a web address, or a path that begins with /. It selects the best implementations that
    fit together. Where none do it writes a proof of that, and the status is 73.
zi why [options] ROOT
    Selects as select does, and writes why nothing better is selected: for each interface the
    implementation that is, and below it each that goes before it, with the reason.
zi conflict [options] ROOT
    Selects as select does. Where nothing fits together it writes the few facts of the feeds
    that leave no choice, and the status is 73; otherwise it writes nothing.
zi check [options] ROOT SELS PROOF
    Writes yes where the file SELS is the selections document of the best implementations for
    ROOT that fit together, and the certificate in the file PROOF proves that.
zi refute [options] ROOT PROOF
    Writes yes where the file PROOF proves that no implementations fit together for ROOT.
zi download [options] ROOT
    Selects as select does, fetches what is selected and isn't there into the store, each tree
    under its digest, and writes the document.
zi run [options] ROOT WORDS..
    Selects and fetches as download does, writes nothing, and starts the program with WORDS,
    whatever they look like. The status is the program's, or 255 where a signal ended it.
zi launch FILE WORDS..
    Starts the program of the selections document in FILE with WORDS. All that is selected has
    to be there. The status is as of run.
zi script [options] ROOT WORDS..
zi script --launch FILE WORDS..
    Does all that run, or launch, does up to the start, and writes a script in place of it. A
    shell that evaluates the script becomes the program: s=$(zi script ..) && eval \"$s\"
zi show FILE
    Writes the selections document in FILE as people read it: for each selection its address, its
    version, its folder or digest and whether that is stored, its commands, and below it what it
    is the first to need.
zi manifest ALGORITHM NAME
    Writes the manifest and the digest of the tree that the first store with NAME has under it.
    ALGORITHM is sha1new, sha256 or sha256new.
zi store add DIGEST FILE..
    Adds a tree of these files, each under the last part of its path, if DIGEST is its
    digest. The files aren't executable in it, and have the time 0. Writes stored, or present
    where the store has it already.
zi store verify DIGEST
    Writes sound where the tree of that digest in the store has it, and otherwise how the
    manifest that stands in it differs: in which line, not at all, or that none stands there.
zi store list
    Writes the digests that the stores have.
zi store purge FILE..
    Takes away each tree of the store whose digest no selection has in these selections
    documents, and writes its digest. All files are read before anything is taken away.
zi demo N
    Chooses for a made program of N and four interfaces, N from 1 to 1000, and writes how many
    interfaces, candidates and selections there are, how many of these are the first of their
    interface, and that the certificate was checked. No feed is read.
zi --help
    Writes this text.
zi --version
    Writes the name and the version.

Options of select, why, conflict, check, refute, download, run and script, before ROOT:
    --command NAME              The command of the program that is wanted (default: run).
    --no-command                Needs no command of the program.
    --version RANGE             Versions of ROOT, as 1.2..!2 | 3 (default: every version).
                                At most once.
    --version-for URI RANGE     The same for the interface URI. Any number of times.
    --os NAME                   The operating system to run on (default: Linux). Each but Windows
                                also runs what is for POSIX.
    --cpu NAME                  The machine to run on (default: x86_64). x86_64, i686, i586 and
                                i486 also run what is for those behind them and for i386.
    --lang TAG                  A language, the best first (default: en). Any number of times.
    --level LEVEL               developer, testing or stable: from this stability on one is as
                                good as another (default: stable).
    --network USE               full, minimal or off: how much may be fetched (default: full).
    --use NAME                  A use for which dependencies count (default: none).
                                Any number of times.
    --rate URI ID STABILITY     The stability of the implementation ID of the interface URI:
                                insecure, buggy, developer, testing, stable, packaged or
                                preferred (default: the feed's). Once for each implementation.
    --search N                  How many lemmas a search may learn, at most 4000000000
                                (default: 100000).
    --proof                     Of select alone: writes a certificate, by which every other
                                choice is worse, in place of the document.
    --                          Ends the options.

Feeds of web addresses are files in the folder that ZI_FEEDS names (default: feeds), each
named by its address with every byte but letters, digits, -, . and _ percent-encoded.
Trees are stored in the folder that ZI_STORE names (default: store), each under its digest.
Those in the folders that ZI_STORES names, with : between, are used too, and stay as they are.
Where ZI_PACKAGES names a file, the packages of the system that stand in it may be selected.
ZI_FETCH names the helper that fetches: a program that is run with an address, and writes what is
there, or ends with status 44 where nothing is. ZI_FETCH_SECONDS says how many seconds it may take
for one address (default: as long as it likes).
Where ZI_LOG names a file, the path and the system's reason of each failure are added to it,
or written to standard error where it is -.
Where standard error is a terminal, or ZI_HINTS is 1, up to three lines follow the one of the status
that begin with hint: and say what is wrong and what to do. ZI_HINTS=0 leaves them out.

Status, and the line on standard error behind \"zi: \":
     0  (no line)                     done
    64  usage at word N               words count from 0, the command is word 0
    65  cannot read FEED
    66  no feed for the root
    67  bad feed FEED: KIND at PLACE  KIND by the tables below; PLACE counts bytes from 0
    68  FEED is longer than N bytes
    69  more than N feeds
    70  more than N interfaces
    71  more than N candidates
    72  more than N literals         of constraints on what may be chosen
    73  no solution                   no implementations fit together
    74  search spent after N lemmas   a greater --search may find an answer
    75  no file NAME
    76  bad selections: fault N       by the tables below
    77  bad proof at line N           lines count from 1
    78  rejected                      the proof doesn't prove it
    79  cannot launch: fault N        by the tables below
    80  cannot fetch ADDRESS          the helper failed, or there is none
    81  nothing at ADDRESS
    82  ADDRESS has N bytes, not N    the second is what its feed says
    83  NAME is already there         two files go to one place
    84  no PATH                       a step of a retrieval is about nothing
    85  expected DIGEST, found DIGEST
    86  NAME is not stored
    87  DIGEST is damaged: DIGEST     the second is the digest of what is there now
    88  bad name PATH                 a newline, or .manifest
    89  tree too large: WHAT past N   WHAT is size, nodes or depth
    90  store fault at NAME
    91  N temporary names taken
    92  cannot start the program
    93  cannot write
    94  out of memory
    96  bad package table at line N   lines of the file that ZI_PACKAGES names count from 1
    97  NAME is not installed         a package of the system that is selected

Kinds of faults of documents:
    1  not UTF-8                      5  a reference that means nothing
    2  another encoding               6  a prefix that isn't declared, or may not be
    3  a document type                7  an attribute twice
    4  not well-formed                8  more than 64 elements one in another

Kinds of faults of feeds:
    1  the root isn't a feed's        8  a step of a retrieval
    2  no id                          9  no interface, or no src
    3  version                       10  another address than it was read under
    4  version expression            11  stability
    5  arch                          12  address
    6  digest                        13  an id twice
    7  binding, command, dependency  14  a package without a name

Faults of selections:
    1  no document                    4  two selections for one interface
    2  the root isn't selections'     5  a selection, by the kinds of faults of feeds
    3  nothing selected for the root  6  nothing selected for what one needs

Faults of a launch:
    1  nothing selected for a runner  5  a $ that stands for nothing
    2  no such command                6  an element that isn't supported
    3  no path to run                 7  a path that isn't relative, or is empty; a package's
    4  commands that lead in a ring      that doesn't begin with /
                                      8  a selection without a path or a digest, but a package
";

/// The answer to `--version`.
pub const VERSION: &str = "zi 0.1\n";
