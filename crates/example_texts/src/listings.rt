//! Listings of herd's for X86.

/// Each of two threads writes, and then sees nothing of what the other wrote.
pub const LISTED_STORE_BUFFERING: &str = "X86 SB
\"PodWR Fre PodWR Fre\"
Com=Fr Fr
{
}
 P0          | P1          ;
 MOV [x],$1  | MOV [y],$1  ;
 MOV EAX,[y] | MOV EAX,[x] ;
exists
(0:EAX=0 /\\ 1:EAX=0)
";

/// The same, forbidden.
pub const LISTED_AS_FORBIDDEN: &str = "X86 SB
\"PodWR Fre PodWR Fre\"
Com=Fr Fr
{
}
 P0          | P1          ;
 MOV [x],$1  | MOV [y],$1  ;
 MOV EAX,[y] | MOV EAX,[x] ;
~exists
(0:EAX=0 /\\ 1:EAX=0)
";

/// The same with a load whose register no equation names.
pub const LISTED_WITH_AN_OPEN_LOAD: &str = "X86 SB
\"PodWR Fre PodWR Fre\"
Com=Fr Fr
{
}
 P0          | P1          ;
 MOV [x],$1  | MOV [y],$1  ;
 MOV EAX,[y] | MOV EAX,[x] ;
exists
(0:EAX=0)
";
