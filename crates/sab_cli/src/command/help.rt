//! The words of the help.

/// What the program is.
pub(crate) const ABOUT: &str =
    "Runs agents that share blocks of bytes by the rules of JavaScript's Atomics, one move at a time";

/// Its version, and the logic that it is proved with.
pub(crate) const VERSION: &str = "0.2.0, proved with Rattle logic dac8208d650f15bf";

/// Its exit statuses, and where to go on.
pub(crate) const STATUSES: &str = "\
Exit status:
  0  done, or help was asked for
  1  the script, or the file of automata, was refused
  2  the command line was refused
  3  the input couldn't be read, or standard output failed
  4  there is no memory, or no thread
  5  two accesses of a run that was judged are unordered; with --finish, some call hasn't returned;
     a search found a deadlock, a failure, states without a way out, or a conflict
  6  a search found none of these, but hasn't gone through all states, or a result has no edge

With status 1, 3 or 4, standard error has a line with the fault's number and name, as
`sabsim: 14 BadView`. If a file couldn't be read, the line has its name too. On a terminal, or
with --explain, a second line says why the input is refused, and at which place. But `sabsim check`
prints a refusal on standard output.

Begin with `sabsim replay --help`, which has a script to try.";

/// What `replay` does.
pub(crate) const REPLAY: &str =
    "Reads a script, makes its moves in order, and writes what each one did";

/// What a script says, what a report says, and an example.
pub(crate) const REPLAY_FORMS: &str = r#"The script is one JSON object, of at most 1,048,576 bytes:
  blocks    the lengths of 1 to 4 blocks in bytes, each at most 65,536; all bytes are 0 at first
  views     at most 64 objects, each with a name, a kind (Int8, Uint8, Uint8Clamped,
            Int16, Uint16, Int32, Uint32, Float32, Float64, BigInt64, BigUint64), a
            block by its position from 0, an offset in bytes, and a length in elements or
            null for all that fit
  agents    at most 16 objects: block says whether the agent can wait, and calls has
            its calls, at most 1,000
  schedule  at most 100,000 moves: a number is a step of that agent, counted from 0,
            and {"timeout":0} ends the wait of agent 0 by its timeout

An older form has bytes in place of blocks: the length of its one block. Its views name no block.

A call is an array of its name, a view's name, an index and what else it takes:
  ["load","a",0]                   ["compareExchange","a",0,1,2]
  ["store","a",0,5]                ["wait","a",0,5] or, with a timeout, ["wait","a",0,5,100]
  ["add","a",0,1], and the same    ["notify","a",0] or, at most 2 agents, ["notify","a",0,2]
  with sub, and, or, xor and exchange
A number is a Number, and a string of digits is a BigInt.

The report on standard output has a line for each move: its position in the schedule, the agent,
the position of the agent's call, and what happens:
  begin       the call begins                     leave X     the wait ends with X
  act X       the call acts, and will return X    return X    the call returns X
  wait        the call begins to wait             stuck WHY   the move has no effect
Positions count from 0. X is a value, ok, not-equal, timed-out, a count, or an error that the call
throws: TypeError or RangeError. After the moves, each block has a line with its bytes in
hexadecimal, and each agent a line with how many of its calls have returned.

With --format explained, words follow the lines, in one column:
  what a call changed, or why it threw
  who waits where, and behind whom
  whom a notify woke, and who woke a waiter
  at the end, how far each agent is that hasn't returned from all its calls
With --format json, each line is an object with the same facts. With --acts, begin and return have
no line.

--format svg writes a picture for browsers: time goes down, and each agent has a lane.
--format script writes the script itself, in one canonical text. Both have all moves, even with
--acts.

Example:
  echo '{"blocks":[1],"views":[{"name":"a","kind":"Uint8","block":0,"offset":0,"length":null}],
  "agents":[{"block":true,"calls":[["store","a",0,300]]}],"schedule":[0,0,0]}' | sabsim replay
writes
  0 0 0 begin
  1 0 0 act 300
  2 0 0 return 300
  block 0 2c
  agent 0 1 of 1

Exit status: 0 done, 1 the script was refused, 2 the command line was refused, 3 the script
couldn't be read or standard output failed, 4 there is no memory, 5 with --finish some call
hasn't returned.

With status 1, 3 or 4, standard error has a line with the fault's number and name, as
`sabsim: 14 BadView`. If a file couldn't be read, the line has its name too, as
`sabsim: 19 ReadFailed: script.json`. If the script was refused, and standard error is a terminal
or --explain is given, a second line follows. It is that of `sabsim check`: the place, the fault
and the reason.

What the script is refused for:
   3 TooMany    more blocks, bytes, views, agents, calls or moves than above
  10 BadShape   a value of a wrong type, or a member that is missing or too many
  11 BadName    a view's name isn't 1 to 32 ASCII letters, digits, _, is given twice, or isn't there
  12 BadNumber  a number isn't whole or is beyond 2^53 - 1, or a string isn't a BigInt
  13 BadCall    no call of that name, or a wrong number of elements
  14 BadView    no kind of that name, or the view doesn't fit its block
  15 BadAgent   a move of an agent that isn't there
  16 NotJson    the input can't be read as JSON in UTF-8
  18 TooLong    the input has more than 1,048,576 bytes
  20 NoBlock    no block at all, or a view on a block that isn't there"#;

/// What `check` does.
pub(crate) const CHECK: &str =
    "Reads a script, and prints what it has, or where and why it is refused";

/// What a check says, and an example.
pub(crate) const CHECK_FORMS: &str =
    r#"The script is that of `sabsim replay --help`. If it isn't refused, standard output has
  ok: 1 block, 1 view, 1 agent, 2 calls, 3 moves
and then a line for each call that throws whenever it acts, whatever the other calls do:
  warning: agents[0].calls[1]: wait on a always throws TypeError: Uint8 isn't waitable

If it is refused, standard output has one line: the place, the fault's number and name, and what
is wrong:
  agents[3].calls[37][1]: 11 BadName: no view is called "lokc"
A place is the names of members and the indices, counted from 0, that lead to a value, as in
JavaScript, or `script` for the whole. If the text isn't JSON, it is a line and a column. The line
names what JavaScript has there and JSON hasn't, as a comment or NaN. Of several faults it reports
one. In quotes it writes a quote, a backslash and each byte that isn't printable ASCII by its
code, as \xc3.

Example:
  echo '{"blocks":[1],"views":[{"name":"a","kind":"Uint8","block":0,"offset":0,"length":null}],
  "agents":[{"block":true,"calls":[["load","a",0],["wait","a",0,0]]}],"schedule":[0,0,0]}' | sabsim check

Exit status: 0 the script isn't refused, warnings or not; 1 it is refused; 2, 3 and 4 as for
replay. Standard error has a line only if the status is 2, 3 or 4, or if the script is too long
(18 TooLong)."#;

/// What `judge` does.
pub(crate) const JUDGE: &str =
    "Makes a script's moves, or reads a recorder's trace, and reports the run's unordered accesses";

/// What a verdict says, and an example.
pub(crate) const JUDGE_FORMS: &str =
    r#"The script is that of `sabsim replay --help`, and its moves are made as by `sabsim replay`. With
--trace, the input is a trace that the recorder kept, seed-N.trace.jsonl. It has a line of at most
1,024 bytes for each event, and at most 1,048,576 lines.

Two accesses are unordered if all of this is true:
  different agents make them
  they overlap
  at least one of them writes
  they aren't both by Atomics on the same bytes
  nothing orders them
These order accesses:
  the order of one agent's calls
  a read by Atomics of what another agent wrote by Atomics to the same bytes
  the order of the waits, ends of waits and notifies at one place
Two unordered accesses are a data race, by ECMA-262, if both write, or if the later one reads what
the earlier one wrote. ECMA-262 promises one order of whole accesses only if there is no data
race. If there is one, the agents may see what no schedule shows.

Standard output has a line for each of the first 100 pairs of unordered accesses, in the order of
their later accesses:
  data race at byte 1 of block 0: agent 0 in store(w, 0, 1) at 1, agent 1 in load(b, 1) at 4; nothing of agent 0 happens before 4
A number after `at`, `up to` or `before` is the position of an entry of the report, or of an event
of the trace. The words after the semicolon say which acts of the first agent happen before the
second access. A line begins with `race` if the two aren't a data race of this run, but would be
one in another order of the same accesses.

If there are more pairs, the last line has their number: `12 more, 3 of them data races`. If there
is none, standard output has
  no data race: 12 accesses by 3 agents in the script's calls of Atomics
For a trace, this line ends after `agents`. With --format json, each pair is an object on a line,
and the last line has the counts.

In a script all accesses are by Atomics. So unordered ones overlap without being on the same
bytes, as a store to a word and a load of one of its bytes. A script with a view whose name begins
with ordinary_ or init_ may not show all accesses of its run. Such a script is refused (21
OrdinaryData). Judge the run's trace with --trace.

Example:
  echo '{"blocks":[4],"views":[{"name":"w","kind":"Int32","block":0,"offset":0,"length":null},
  {"name":"b","kind":"Int8","block":0,"offset":0,"length":null}],
  "agents":[{"block":true,"calls":[["store","w",0,1]]},{"block":true,"calls":[["load","b",1]]}],
  "schedule":[0,0,0,1,1,1]}' | sabsim judge

Exit status: 0 no two accesses are unordered; 5 some are, or with --finish some call hasn't
returned; 1 the script or a line of the trace is refused; 2, 3 and 4 as for replay. If a line of a
trace is refused, standard error has its number, as `sabsim: 10 BadShape: line 12`."#;

/// What `--trace` says.
pub(crate) const TRACE: &str = "The input isn't a script, but a recorder's trace";

/// What `--format` chooses of a verdict.
pub(crate) const VERDICT_FORMAT: &str = "How to write the verdict: in words, or as JSON";

/// What `race` does.
pub(crate) const RACE: &str =
    "Reads a script, runs its agents in threads, and writes what each move did";

/// What FILE says.
pub(crate) const FILE: &str = "The input's file; standard input if it is - or isn't given";

/// What `--format` chooses.
pub(crate) const FORMAT: &str =
    "How to write the run: plain, explained in words, as JSON, as a picture, or as the script that replays it";

/// What `--acts` leaves out.
pub(crate) const ACTS: &str = "Leave out the lines of begin and return";

/// What `--finish` asks for.
pub(crate) const FINISH: &str = "End with status 5, after the report, if some call hasn't returned";

/// What `--explain` asks for.
pub(crate) const EXPLAIN: &str =
    "If the script is refused, print the place and the reason too, as on a terminal";

/// What `--share` chooses.
pub(crate) const SHARE: &str =
    "How the threads share the blocks: each takes a lock for each move, or sends its moves through a ring to one owner";

/// What `--spins` chooses.
pub(crate) const SPINS: &str =
    "How many more steps an agent makes at each wait before the wait's time is up, 0 to 1000";

/// What `--mix` chooses.
pub(crate) const MIX: &str =
    "A number by which the threads are mixed; 0 doesn't mix them [default: another one each run]";

/// What the threads do with a script, what the report says, and an example.
pub(crate) const RACE_FORMS: &str =
    r#"The script and the report are those of `sabsim replay --help`. The script's schedule is checked,
and then not used. Each agent makes its moves in a thread of its own:
  for a wait, two steps, N steps, {"timeout":AGENT}, and two steps
  for any other call, three steps
The threads take turns freely, so two runs may differ.

An agent makes no other moves. If nobody wakes it within the steps of a wait without a timeout, it
uses up the moves of its later calls too. Then it may end in the middle of a call. So a run may
end unfinished without any lost wake-up. A greater N makes that rarer.

A SEED other than 0 mixes the threads:
  before each of its first 16 moves, a thread yields 0 to 31 times
  after some of its later moves, the thread yields; with rings, their owner does
  the owner of the rings begins each look for a next move at one of them
How often, after which moves and at which ring is drawn from the SEED. The threads still take
turns freely, so two runs of one SEED may differ.

The report has the moves in the order in which they took effect. `leave timed-out`, `stuck
not-waiting` and `stuck endless` are moves {"timeout":AGENT}. Every other entry is a step of its
agent. --format script writes the script with these moves as its schedule, in place of the report.
`sabsim replay` writes the same report for it. If a race has more moves than a schedule can have,
it is refused then (3 TooMany).

Example:
  echo '{"blocks":[4],"views":[{"name":"a","kind":"Int32","block":0,"offset":0,"length":null}],
  "agents":[{"block":true,"calls":[["add","a",0,1]]},{"block":true,"calls":[["add","a",0,1]]}],
  "schedule":[]}' | sabsim race --share lock

Exit status: as for replay; 4 also if a thread couldn't be started (9 NoThread), and 1 if the
agents have more than 1,048,576 moves in all (8 TooManyMoves)."#;

/// What `search` does.
pub(crate) const SEARCH: &str =
    "Reads a file of automata, goes through all schedules, and writes what they can lead to";

/// What `--timeouts` chooses.
pub(crate) const TIMEOUTS: &str =
    "When a wait with a timeout may time out: at any time, only if no other act changes anything, or never";

/// What `--limit` says.
pub(crate) const LIMIT: &str = "How many states to go through at most, 1 to 4294967295";

/// What `--format` chooses of what a search finds.
pub(crate) const SEARCH_FORMAT: &str =
    "How to write what is found: in words, as JSON, or a failure as the script that replays it";

/// What `--failure` chooses.
pub(crate) const FAILURE: &str =
    "With --format script: which of the listed failures, from 1 [default: a shortest one]";

/// What `--states` adds.
pub(crate) const STATES: &str = "Write each state too";

/// What `--explain` asks for of a file of automata.
pub(crate) const EXPLAIN_FILE: &str =
    "If the file is refused, print the place and the reason too, as on a terminal";

/// What a file of automata says, what a search writes, and an example.
pub(crate) const SEARCH_FORMS: &str = r#"The file is one JSON object, of at most 16,777,216 bytes:
  blocks    as in a script: see `sabsim replay --help`
  initial   may be left out: the bytes of each block at first, as two lower-case hexadecimal
            digits each; without it all bytes are 0
  views     as in a script
  automata  objects, each with a name and nodes, at most 262,144 nodes in all
  agents    at most 16 objects: automaton is the name of the one that it follows, from the first
            node on, and block says whether the agent can wait

A node is one of
  {"call":CALL,"edges":EDGES}                 a call as in a script
  {"read":[BLOCK,BYTE,LENGTH],"edges":EDGES}  an ordinary read of these bytes
  {"write":[BLOCK,BYTE,BYTES],"edges":EDGES}  an ordinary write
  {"finished":true}                           the agent's end
  {"threw":TEXT}                              its end by an error
EDGES has at most 65,536 arrays, as ["0",2]: after the result 0 the agent goes to node 2, counted
from 0. The result of a call is spelled as in a report, that of a read is its bytes, and a write
has one edge, of the result "". A result without an edge leads nowhere, and is reported.

Each call is one act, and so is an ordinary access with "alone":true. Other ordinary accesses are
made in the act before them. From one of these, an edge leads to a call, an end, an access that is
alone, or a node with a greater number.

Standard output has a line for the search:
  closed: 99 states, 164 acts, timeouts early
  not closed: 1000 states, 2300 acts, timeouts early; all runs of up to 12 acts
Closed means that no schedule leads to another state. Else the search has as many states as
--limit says. States that differ only by an exchange of agents with the same automaton and the
same block count as one. Then each of these has a line, with the number of states and a shortest
schedule:
  deadlock: 5 states; 0 act 0, 1 wait           some agent hasn't finished, and none can act
  failed "gave up": 3 states; 0 act 1           an agent is at its end by this error
  no way out: 2 states; 1 act 0                 from there no schedule ever ends
  unknown: automaton 0, node 3, answer 5: ..    an act of which the result has no edge
  conflict: automaton 0, node 1 and automaton 1, node 2: ..
                                                their accesses are unordered, and one writes
  final 0000000004000000: 1 state; at once      all agents have finished, with these bytes

--format script writes a script in place of these lines. `sabsim replay` makes the acts of a
failure's schedule with it. A failure is a deadlock, a thrown error, no way out or a conflict. Of
those with the fewest acts it is the one that is listed first, and with --failure K it is the K-th
one in the list. If there is none, nothing is written. If a script can't have its run, it is
refused (3 TooMany): the file has ordinary accesses, or bytes at first that aren't 0, or the run
has too many calls or moves.

Example:
  echo '{"blocks":[4],"views":[{"name":"m","kind":"Int32","block":0,"offset":0,"length":null}],
  "automata":[{"name":"sleeper","nodes":[{"call":["wait","m",0,0],"edges":[["ok",1]]},{"finished":true}]}],
  "agents":[{"automaton":"sleeper","block":true}]}' | sabsim search
writes
  closed: 2 states, 1 act, timeouts early
  deadlock: 1 state; 0 wait

Exit status: 0 the search is closed, and lists nothing but final bytes; 5 it lists something other
than unknown results and final bytes; 6 it lists unknown results, or isn't closed; 1 the file is
refused; 2, 3 and 4 as for replay.

What a file is refused for besides the faults of a script (20 NoBlock, as there):
  18 TooLong    the file has more than 16,777,216 bytes
  22 BadEdge    an edge to no node, twice for one result, of a result that its node can't have, or
                back from an ordinary access that isn't alone
  23 NoNode     an automaton without nodes, or an agent of no automaton
  24 BadRange   an ordinary access outside its block"#;
