//! The page of help without a command. It is the same as the file `building/help`.

/// What `rollout --help` prints: the commands of both programs, by what they are for.
pub const HELP: &str = "\
Decides by verified BPF programs which release an app is offered.

Usage: rollout COMMAND ..
       rollout COMMAND --help   prints what a command takes, and what each option does
       rollout -V, --version    prints the version, its commit and the kit that proved it

Serve and operate:
  serve       Serve a manifest's releases until the operator stops the server
  load        Let a server load a manifest
  halt        Let a server offer no release of an app, whatever is loaded
  resume      Let a server serve a halted app again
  show        Show a server's generation and its apps
  state       Show which load a server serves, and its halted apps
  cells       Show a server's counters that aren't 0
  stop        End a server
  stage       Halt an app, let more buckets in, go back, or put a manifest in place

Manifests and rules:
  check       Check manifests, and show what they declare or why they are refused
  simulate    Count how many of the 10000 buckets get which release by a manifest
  diff        Show what changes from one manifest to another, and for which machines
  ask         Print the reply that a server of a manifest would send to a request
  report      Count the requests, offers, installs and refusals in a server's log
  why         Explain the last requests of a machine in a server's log
  replay      Play a script of runs and changes of manifest, without a server
  compile     Compile a rule into an accepted program's bytes

Programs:
  asm         Assemble a text into a program's bytes
  list        List a program's instructions, one a line
  verify      Verify a program, and print why it is refused if it is
  run         Verify a program and run it once for an app
  trace       Run a program once for an app, and print each step
  explain     List a program with what the verifier knows before each instruction
  order       Put a program's blocks in an order in which every jump leads forward

This program:
  completion  Print the completions of bash, zsh or fish, or the page of the manual

Programs are of RFC 9669's conformance groups base32, base64, divmul32, divmul64, atomic32 and
atomic64.";
