//! The words of `--help`, beside those that stand at each argument.

/// What the program does, in a sentence.
pub const PROGRAM: &str =
    "Solves minimum-cost flow, maximum flow and assignment problems, proves its answers, and answers edits";

/// After the commands of the program.
pub const AFTER_PROGRAM: &str = "Examples:
  mcf solve --proof plan.min > plan.sol   a best plan, and the potentials that prove it
  mcf check plan.min plan.sol             valid, whoever made the answer, or not valid
  mcf session plan.min                    edit the problem, undo and redo; end with Ctrl-D

Statuses:
  0  solved; valid; the session ended
  1  no legal flow exists; not valid
  2  the command line is refused
  3  a text is refused: 'mcf: problem line L: fault N' or 'mcf: answer line L: fault N'
  4  a read or a write failed, or a file was not opened
  5  want of memory

Each command's --help says its faults or refusals in words; docs/FORMATS.md and 'man 5 mcf' say them all, with the
formats.";

/// What `solve` does, in a sentence.
pub const SOLVE: &str = "Print a best flow of a problem, or the cut that shows that there is none";

/// After the arguments of `solve`.
pub const AFTER_SOLVE: &str = "Examples:
  mcf solve --proof plan.min > plan.sol
  zcat plan.min.gz | mcf solve

A problem is a text of these lines, the p line first, all numbers whole:
  p min NODES ARCS   n NODE SUPPLY (below 0: demand)       a FROM TO LOW CAP COST
  p max NODES ARCS   n NODE s (source), n NODE t (sink)    a FROM TO CAP
  p asn NODES ARCS   n NODE (each of the source side)      a FROM TO COST

It prints 's VALUE' and a line 'f FROM TO FLOW' for each arc; with --proof also 'v NODE POTENTIAL' for each node;
or 'i SHORTAGE' and a line 'k NODE' for each node of the cut, with status 1. Nothing is printed before the end.

Faults of a problem:
   1  a line of more than 1,024 bytes         10  a node named twice, a second source or sink
   2  a line that is none of p, n, a, c       11  max: source or sink is missing
   3  wrong number of fields                  12  more arc lines than the p line says
   4  not a number (no +3, 3.0, 1e6, inf)     13  fewer arc lines than the p line says
   5  a number out of range                   14  no p line
   6  a node or arc line before the p line    15  the lower bound is above the capacity
   7  a second p line                         16  asn: the arc does not lead from a named node to another
   8  a kind that is not min, max or asn      17  max: a node word that is neither s nor t
   9  a node line after an arc line";

/// What `session` does, in a sentence.
pub const SESSION: &str =
    "Keep a problem open: edit it, undo and redo, each command answered at once";

/// After the arguments of `session`.
pub const AFTER_SESSION: &str =
    "Commands, one a line on standard input (arc K is the K-th arc line, added arcs come next):
  cap K V        the capacity of arc K (min, max)     undo   back by one step
  low K V        its lower bound (min)                redo   forward again
  cost K V       its cost (min, asn)                  show   print the flow or the cut
  supply ID V    the supply of node ID (min)          proof  print it with its potentials
  add ..         an arc, by the fields of an a line   group  the edits up to 'end' are one step:
  close K        both bounds of arc K become 0        end    solved, answered and undone at once
  mark NAME      marks where you are, by 1 to 32 letters; at most 16 names are marked at a time
  back NAME      undoes or redoes up to there; an edit takes away the marks of steps that were undone

Each answers 's VALUE' (best), 'i SHORTAGE' (no legal flow exists now) or 'r N' (refused, nothing changed); of a
group only 'end' does, with the number of its first refused line:
   1  a line of more than 1,024 bytes    24  no room for another arc: start with a larger --extra
   2  no such command                    25  nothing to undo
   3  wrong number of fields             26  nothing to redo
   4  not a number                       27  asn: not from the source side to the sink side
   5  a value out of range               28  no mark of this name
  20  no such arc                        29  'end' without 'group', or in a group no edit
  21  no such node                       30  not enough memory for this edit or group
  22  the lower bound would be above     31  more than 1,000 edits in a group
      the capacity                       32  not a name
  23  not for this kind of problem       33  16 other names have marks

Examples:
  mcf session plan.min
  echo 'cap 5 3' | mcf session plan.min
  printf 'group\\ncap 1 1\\ncap 2 3\\nend\\n' | mcf session plan.min";

/// What `check` does, in a sentence.
pub const CHECK: &str = "Say whether an answer to a problem is right, whoever made it";

/// After the arguments of `check`.
pub const AFTER_CHECK: &str = "Examples:
  mcf solve --proof plan.min > plan.sol
  mcf check plan.min plan.sol

'valid': the flow is legal and the v lines prove that none is better, or the cut shows that none exists.

Faults of an answer (those of a problem stand in 'mcf solve --help'):
   1  a line of more than 1,024 bytes
   2  a line that is none of s, f, v, i, k, c
   3  wrong number of fields
   4  not a number
   5  no such node
  40  a line out of order or one too many, or the text ends too early: the v lines are missing,
      most often. Make the answer with 'mcf solve --proof'.";
